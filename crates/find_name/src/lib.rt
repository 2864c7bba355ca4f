// The search for a name in the lent table of locals.

#![tactic(auto)]

ghost use Rattle.std.specs.Prelude.{true, ◌≡◌, ℕ, ◌+◌, ◌*◌, ◌≤◌, length};
ghost use Rattle.rules.specs.Locals.{newest};
ghost use Rattle.table_locals.specs.Meaning.{locals_of};
ghost use Rattle.find_name.specs.Answers.{NoneNamed, found};

use value_local::LocalId;

// Where an entry has the numbers that are read alone: a search looks at one or two numbers of each entry.
const HAS_NAME: usize = 9;

const NAME: usize = 10;

// Whether none of the four entries from `from` on has the name. Four reads in a row: one at a time misses the speed bar.
fn none_named(locals: &[u32], name: u32, from: usize) -> bool
    requires { 16 * from + 64 ≤ length locals.now }
    ensures { result ≡ true → NoneNamed locals.now name from }
{
    let at = 16 * from + NAME;
    let first = locals[at] != name;
    let second = locals[at + 16] != name;
    let third = locals[at + 32] != name;
    let fourth = locals[at + 48] != name;
    (first & second) & (third & fourth)
}

// How many of the n locals from `first` on are left to search, once four at a time are passed of which none has the name.
fn left_to_search(locals: &[u32], name: u32, first: usize, n: usize) -> usize
    requires { (16 * (first + n) ≤ length locals.now) × (first + n ≤ 4294967296) }
    ensures { (result ≤ n) × ((total : ℕ) → first + n ≤ total → newest name (locals_of total locals.now) first n ≡
        newest name (locals_of total locals.now) first result) }
{
    let mut left = n;
    while 4 <= left && none_named(locals, name, first + (left - 4)) {
        left -= 4;
    }
    left
}

// The newest of the n locals from `first` on that has the name.
pub fn newest(locals: &[u32], name: u32, first: usize, n: usize) -> Option<LocalId>
    requires { (16 * (first + n) ≤ length locals.now) × (first + n ≤ 4294967296) }
    ensures { (total : ℕ) → first + n ≤ total → found result ≡ newest name (locals_of total locals.now) first n }
{
    let left = left_to_search(locals, name, first, n);
    for k in (0..left).rev() {
        let at = 16 * (first + k);
        if locals[at + NAME] == name && locals[at + HAS_NAME] != 0 {
            return Some(LocalId((first + k) as u32));
        }
    }
    None
}

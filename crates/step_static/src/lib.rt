// Whether an object is static: no head is computed, and the names are distinct.

#![tactic(auto)]

ghost use Rattle.std.specs.Prelude.{◌≡◌, ◌↔◌, IsTrue, ◌+◌, ◌*◌, ◌/◌, ◌%◌, ◌≤◌, ◌<◌, length};
ghost use Rattle.rules.specs.Walk.{is_among};
ghost use Rattle.step_static.specs.Answers.{HeadsThere, IsStatic, names_before, NoneAbove, flag_of, Flagged, NowFlagged};

use bytes_read::number_at;
use bytes_records::offsets;

// Flags tell which names were met, one for each residue by 1,024, as bits: clearing them costs little for a small object too.
// Which of 16 numbers has a name's flag among its 64.
fn word_of(name: u32) -> usize
    ensures { (result ≡ name / 64 % 16) × (result < 16) }
{
    (name / 64 % 16) as usize
}

// Whether this name was flagged or another of its residue.
fn is_flagged(met: &[u64; 16], name: u32) -> bool
    ensures { IsTrue result ↔ (flag_of met.now name ≡ 1) }
{
    (met[word_of(name)] >> (name % 64)) % 2 == 1
}

fn flag(met: &mut [u64; 16], name: u32)
    ensures { NowFlagged met.old met.new name }
{
    met[word_of(name)] |= 1 << (name % 64);
}

// Whether the fixed name is that of one of the first n heads, which have fixed names too.
fn is_repeated(tree: &[u8], at: usize, n: usize, name: u32) -> bool
    requires { at + 26 * n ≤ length tree.now }
    ensures { result ≡ is_among name (names_before tree.now at n) }
{
    for i in (0..n).rev() {
        if number_at(tree, at + offsets::FH_SIZE * i + offsets::FH_NAME) == name {
            return true;
        }
    }
    false
}

// The same where no name of the first n is above `highest` and each is flagged: a name that is above, or not flagged, needs no search.
fn is_met(tree: &[u8], at: usize, n: usize, name: u32, highest: u32, met: &[u64; 16]) -> bool
    requires { (at + 26 * n ≤ length tree.now) × (NoneAbove tree.now at n highest) × (Flagged tree.now at n met.now) }
    ensures { result ≡ is_among name (names_before tree.now at n) }
{
    name <= highest && is_flagged(met, name) && is_repeated(tree, at, n, name)
}

// Whether no head of n is computed and their names all differ.
pub fn is_static(tree: &[u8], at: usize, n: u32) -> bool
    requires { HeadsThere tree.now n at }
    ensures { IsStatic result tree.now at n }
{
    let mut highest: u32 = 0;
    let mut met = [0u64; 16];
    for i in 0..n as usize {
        let p = at + offsets::FH_SIZE * i;
        if number_at(tree, p + offsets::FH_KIND) != 0 {
            return false;
        }
        let name = number_at(tree, p + offsets::FH_NAME);
        if is_met(tree, at, i, name, highest, &met) {
            return false;
        }
        highest = highest.max(name);
        flag(&mut met, name);
    }
    true
}

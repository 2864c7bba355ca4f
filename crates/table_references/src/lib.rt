// References between locals, in a lent table of sixteen numbers an entry, and the keeping of those that a spec has noted.

#![tactic(auto)]

ghost use Rattle.std.specs.Prelude.{true, ◌≡◌, ℕ, ◌+◌, ◌*◌, ◌<◌, ◌≤◌, length};
ghost use Rattle.table_references.specs.Meaning.{refers, reference_at, references_of};
ghost use Rattle.table_references.specs.Tables.{PutReference, NoneNoted, Keeps};

use table_locals::SCRATCH_REFERENCED;
use value_local::LocalId;

// A reference kept for the spec `user`, whose value referred to its sibling `used`.
#[derive(Clone, Copy, Debug, PartialEq, Eq)]
pub struct Reference {
    pub user: LocalId,
    pub used: LocalId,
}

// The reference of an entry.
pub fn reference_at(references: &[u32], i: usize) -> Reference
    requires { 16 * i + 16 ≤ length references.now }
    ensures { (n : ℕ) → i < n → refers result ≡ reference_at (references_of n references.now) i }
{
    let at = 16 * i;
    Reference {
        user: LocalId(references[at]),
        used: LocalId(references[at + 1]),
    }
}

// A reference into an entry.
pub fn put_reference(references: &mut [u32], i: usize, r: Reference)
    requires { 16 * i + 16 ≤ length references.old }
    ensures { PutReference references.old references.new i (refers r) }
{
    let at = 16 * i;
    references[at] = r.user.0;
    references[at + 1] = r.used.0;
}

// Whether the next four entries are before the end and none of them has a note. Four reads in a row: one at a time misses the speed bar.
fn none_noted(locals: &[u32], next: usize, end: usize) -> bool
    requires { (next ≤ end) × (16 * end ≤ length locals.now) }
    ensures { result ≡ true → NoneNoted locals.now next end }
{
    if end - next < 4 {
        return false;
    }
    let at = 16 * next + SCRATCH_REFERENCED;
    let first = locals[at] == 0;
    let second = locals[at + 16] == 0;
    let third = locals[at + 32] == 0;
    let fourth = locals[at + 48] == 0;
    (first & second) & (third & fourth)
}

// The references that the spec `user` has noted among the n locals from `first` on, kept after the first `kept`; their notes are cleared.
// Answers how many are kept now, or none where they pass the limit. No `for`: for the speed bar it goes on by four or by one.
pub fn keep_references(
    locals: &mut [u32],
    references: &mut [u32],
    user: LocalId,
    first: usize,
    n: usize,
    kept: usize,
    max_references: usize,
) -> Option<usize>
    requires { (16 * (first + n) ≤ length locals.old) × (first + n ≤ 4294967296) × (16 * max_references ≤ length
        references.old) × (kept ≤ max_references) }
    ensures { Keeps result locals.old locals.new references.old references.new user.0 first (first + n) kept
        max_references }
{
    let end = first + n;
    let mut count = kept;
    let mut next = first;
    while next < end {
        if none_noted(locals, next, end) {
            next += 4;
            continue;
        }
        let k = next;
        next += 1;
        if locals[16 * k + SCRATCH_REFERENCED] != 0 {
            if max_references <= count {
                return None;
            }
            let used = LocalId(k as u32);
            put_reference(references, count, Reference { user, used });
            locals[16 * k + SCRATCH_REFERENCED] = 0;
            count += 1;
        }
    }
    Some(count)
}

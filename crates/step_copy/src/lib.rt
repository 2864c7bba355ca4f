// Records that the output takes from the tree as they stand there, and arrays of constants: their bytes copied after those that are used.

#![tactic(auto)]

ghost use Rattle.std.specs.Prelude.{◌≡◌, ◌+◌, ◌*◌, ◌≤◌, ◌<◌, length, take, drop};
ghost use Rattle.std.proofs.lemmas.List.Edits.{sets};
ghost use Rattle.rules.specs.Numbers.{numbers_bytes, code, code_at};
ghost use Rattle.rules.specs.Records.{size_of};
ghost use Rattle.bytes_records.specs.Marks.{mark_of};
ghost use Rattle.law_runs.specs.Steps.{values_from};
ghost use Rattle.step_copy.specs.Answers.{RecordCopied, ConstantsEmitted};

use bytes_records::{has_room, offsets, size_of};
use bytes_write::put_record;
use refusal::Reason;
use state::{AnalysisStack, Walked};

// Four bytes of the tree at a place of the output.
#[tactic(auto, using(crate::proofs::Laws::part_copied))]
fn copy_four(out: &mut [u8], to: usize, tree: &[u8], from: usize)
    requires { (to + 4 ≤ length out.old) × (from + 4 ≤ length tree.now) }
    ensures { out.new ≡ sets out.old to (take 4 (drop from tree.now)) }
{
    out[to..to + 4].copy_from_slice(&tree[from..from + 4]);
}

// A mark and n numbers after the bytes that are used. One number after another: a copy of a length that is known only when it runs would call
// `memmove`, and a caller in C is promised that nothing but `memset` is called. Inlined as `copy_record` is, whose answer is then made where it goes.
#[inline(always)]
fn copy_bytes(out: &mut [u8], used: usize, tree: &[u8], at: usize, n: usize)
    requires { (used + (2 + 4 * n) ≤ length out.old) × (at + (2 + 4 * n) ≤ length tree.now) }
    ensures { out.new ≡ sets out.old used (take (2 + 4 * n) (drop at tree.now)) }
{
    out[used..used + 2].copy_from_slice(&tree[at..at + 2]);
    for i in 0..n {
        copy_four(out, used + (2 + 4 * i), tree, at + (2 + 4 * i));
    }
}

// A record of the tree that is the output's too, or refusal 9.
#[inline(always)]
pub fn copy_record(
    tree: &[u8],
    out: &mut [u8],
    st: AnalysisStack,
    at: usize,
    next: usize,
    mark: u32,
) -> Walked
    requires { (at + size_of (mark_of mark) ≤ length tree.now) × (code_at tree.now at ≡ code (mark_of mark)) }
    ensures { RecordCopied result tree.now out.old out.new st at next mark }
{
    let size = size_of(mark);
    if has_room(out, st.out, size) {
        let end = st.out + size;
        copy_bytes(out, st.out, tree, at, (size - 2) / 4);
        return Ok((AnalysisStack { out: end, ..st }, next));
    }
    Err(Reason::OutputFull.at(at))
}

// The values of n constants, of six bytes each, after the bytes that are used.
fn copy_values(out: &mut [u8], used: usize, tree: &[u8], at: usize, n: usize)
    requires { (used + 4 * n ≤ length out.old) × (at + 6 * n ≤ length tree.now) }
    ensures { out.new ≡ sets out.old used (numbers_bytes (values_from tree.now n at)) }
{
    for i in 0..n {
        copy_four(
            out,
            used + 4 * i,
            tree,
            at + offsets::TV_SIZE * i + offsets::TV_CONSTANT,
        );
    }
}

// An array of n constants as one record, or refusal 9 where the whole of it has no room.
pub fn emit_constants(tree: &[u8], out: &mut [u8], st: AnalysisStack, at: usize, n: usize) -> Walked
    requires { (at + 6 + 6 * n ≤ length tree.now) × (n < 4294967296) }
    ensures { ConstantsEmitted result tree.now out.old out.new st at n }
{
    let next = at + offsets::AR_SIZE + offsets::TV_SIZE * n;
    let size = 6 + 4 * n;
    if has_room(out, st.out, size) {
        let end = st.out + size;
        put_record(out, st.out, b"AC", &[n as u32]);
        copy_values(
            out,
            st.out + offsets::AR_SIZE,
            tree,
            at + offsets::AR_SIZE,
            n,
        );
        return Ok((AnalysisStack { out: end, ..st }, next));
    }
    Err(Reason::OutputFull.at(at))
}

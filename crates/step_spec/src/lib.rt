// What happens when a spec's value is done: it is kept or dropped.

#![tactic(auto)]

ghost use Rattle.std.specs.Prelude.{◌≡◌, ℕ, ◌+◌, ◌*◌, ◌<◌, ◌≤◌, length};
ghost use Rattle.resolver.specs.Kept.{Kept};
ghost use Rattle.table_rows.specs.Entries.{number};
ghost use Rattle.step_retain.specs.Answers.{Keepable};
ghost use Rattle.step_spec.specs.Answers.{OuterTainted, SpecDropped, SpecWritten, SpecKept, SpecRecorded, SpecClosed};

use state::{AnalysisStack, Limits, Specs, Step};
use step_frame::close_frame;
use step_locals::first_in_frame;
use step_retain::{is_kept, keep_spec_references, set_analysis};
use step_write::emit;
use value_depths::AnalysisResult;
use value_local::LocalId;

// A bind, or a parameter with its name and whether it has a default.
#[derive(Clone, Copy, Debug, PartialEq, Eq)]
pub enum Spec {
    Bind,
    Param(u32, u32),
}

// A spec whose value is done. The slots of its frame before `base` are not for specs, and `kept` of them are kept so far; the
// output had `start` bytes before the value, and what encloses it depended on `outer`.
#[derive(Clone, Copy, Debug, PartialEq, Eq)]
pub struct SpecEnd {
    pub base: u32,
    pub kept: u32,
    pub start: usize,
    pub outer: AnalysisResult,
    pub spec: Spec,
}

// What encloses a value depends on what the value does; `outer` is what that depended on before.
fn taint_outer(st: AnalysisStack, outer: AnalysisResult) -> AnalysisStack
    ensures { OuterTainted result st outer }
{
    let value = st.taint;
    let taint = outer.taint_by(value);
    AnalysisStack { taint, ..st }
}

// The output is taken back to where it began; what the spec noted passes to the next kept one of its frame, so it stays.
fn drop_spec(st: AnalysisStack, start: usize) -> AnalysisStack
    requires { start ≤ st.out }
    ensures { SpecDropped result st start }
{
    AnalysisStack { out: start, ..st }
}

// `BV` and the slot, or `PA` with the name, the slot and the flag.
fn write_spec(out: &mut [u8], st: AnalysisStack, at: usize, spec: Spec, slot: u32) -> Step
    ensures { SpecWritten result out.old out.new st at spec slot }
{
    match spec {
        Spec::Bind => emit(out, st, at, b"BV", &[slot]),
        Spec::Param(name, flag) => emit(out, st, at, b"PA", &[name, slot, flag]),
    }
}

// A kept spec: its references (17), its local's analysis, and its record.
fn keep_spec(
    out: &mut [u8],
    locals: &mut [u32],
    references: &mut [u32],
    frames: &[u32],
    limits: Limits,
    st: AnalysisStack,
    at: usize,
    id: LocalId,
    slot: u32,
    outer: AnalysisResult,
    spec: Spec,
) -> Step
    requires keepable { Keepable limits locals.old frames.now references.old st }
    requires id_lt_locals { id.0 < st.locals }
    ensures { SpecKept result out.old out.new locals.old locals.new references.old references.new frames.now limits st
        at id.0 slot outer spec }
{
    let after = keep_spec_references(locals, references, frames, limits, st, at, id)?;
    let analysed = set_analysis(locals, after, id);
    let tainted = taint_outer(analysed, outer);
    write_spec(out, tainted, at, spec, slot)
}

// The id of a slot's local, which is one of the `locals` that there are, so that it fits.
fn id_of(first: u32, slot: u32, locals: u32) -> LocalId
    requires { first + slot < locals }
    ensures { result.0 ≡ first + slot }
{
    LocalId(first + slot)
}

// A spec is kept where the next of its frame's slots is its own, and else dropped.
pub fn record_spec_init(
    out: &mut [u8],
    locals: &mut [u32],
    references: &mut [u32],
    frames: &[u32],
    limits: Limits,
    st: AnalysisStack,
    at: usize,
    end: SpecEnd,
    next: usize,
) -> Specs
    requires { Keepable limits locals.old frames.now references.old st × (end.base + end.kept + 1 < 4294967296) × (end.start ≤
        st.out) }
    ensures { SpecRecorded result out.old out.new locals.old locals.new references.old references.new frames.now
        limits st at end.base end.kept end.start end.outer end.spec next }
{
    let slot = end.base + end.kept;
    if is_kept(locals, frames, st, at, slot) {
        let id = id_of(first_in_frame(frames, st), slot, st.locals);
        let done = keep_spec(
            out, locals, references, frames, limits, st, at, id, slot, end.outer, end.spec,
        )?;
        return Ok((done, next, end.kept + 1));
    }
    let tainted = taint_outer(st, end.outer);
    Ok((drop_spec(tainted, end.start), next, end.kept))
}

// The value's frame closes, and the spec is kept or dropped.
pub fn close_spec(
    out: &mut [u8],
    locals: &mut [u32],
    references: &mut [u32],
    frames: &[u32],
    captures: &mut [u32],
    limits: Limits,
    st: AnalysisStack,
    at: usize,
    end: SpecEnd,
    next: usize,
) -> Specs
    requires { Keepable limits locals.old frames.now references.old st × (end.base + end.kept + 1 < 4294967296) × (end.start ≤
        st.out) × (st.out ≤ length out.old) × (Kept st.frames frames.now st.captures captures.old) }
    ensures { SpecClosed result out.old out.new locals.old locals.new references.old references.new frames.now
        captures.old captures.new limits st at end.base end.kept end.start end.outer end.spec next }
{
    let after = close_frame(out, frames, captures, st, at)?;
    record_spec_init(
        out, locals, references, frames, limits, after, at, end, next,
    )
}

// Names, self, super and $: each read in the tree, used, resolved in the frame on top, its slot written, and the place after it answered.

#![tactic(auto)]

ghost use Rattle.std.specs.Prelude.{◌≡◌, ◌+◌, ◌*◌, ◌≤◌, ◌<◌, length};
ghost use Rattle.rules.specs.Numbers.{number_at, code, ID as identity};
ghost use Rattle.resolver.specs.Kept.{Kept};
ghost use Rattle.state.specs.Walks.{place_of, Stands};
ghost use Rattle.step_name.specs.Answers.{kind_of, identity_id, identity_step, variable_step, name_step, UsedObject, UsedLocal, Uses, NameAnalyzed};
ghost use Rattle.step_name.specs.Slots.{SlotWritten, SlotEmitted};

use bytes_read::number_at;
use bytes_records::{ID, offsets};
use find_name::newest;
use refusal::Refusal;
use resolver::resolve_to_slot;
use state::{AnalysisStack, Limits, Place, Step, Walked};
use step_touch::{touch_local, touch_object};
use step_write::{BadKind, Code, bad_place, emit};
use table_captures::{LSlot, slot_number};
use value_local::LocalId;

// `LS` or `CS` and the slot's number.
fn write_slot(out: &mut [u8], st: AnalysisStack, place: usize, slot: LSlot) -> Step
    ensures { SlotWritten result out.old out.new st place slot }
{
    let number = [slot_number(slot)];
    match slot {
        LSlot::Local(_) => emit(out, st, place, b"LS", &number),
        LSlot::Capture(_) => emit(out, st, place, b"CS", &number),
    }
}

// The slot of a local in the frame on top, captured on the way where it must be (12, then 8).
fn emit_slot(
    out: &mut [u8],
    frames: &[u32],
    captures: &mut [u32],
    limits: Limits,
    st: AnalysisStack,
    place: usize,
    id: LocalId,
) -> Step
    requires { (Kept st.frames frames.now st.captures captures.old) × (16 * limits.max_captures ≤ length captures.old) }
    ensures { SlotEmitted result out.old out.new frames.now captures.old captures.new limits st place id.0 }
{
    let resolved = resolve_to_slot(
        frames,
        captures,
        st.frames,
        st.captures,
        limits.max_captures,
        id,
    );
    match resolved {
        Ok((slot, captures)) => write_slot(out, AnalysisStack { captures, ..st }, place, slot),
        Err(reason) => Err(Refusal { reason, place }),
    }
}

// The state once a name is used, and the local whose slot is still to be written, if there is one.
pub type Used = Result<(AnalysisStack, Option<LocalId>), Refusal>;

// Which name of an object a record says.
#[derive(Clone, Copy, Debug, PartialEq, Eq)]
enum Identity {
    This,
    Super,
    Dollar,
}

// The name of a number in the tree, which the first walk found to be one of the three.
fn identity_of(kind: u32) -> Identity
    requires { kind < 3 }
    ensures { kind_of result ≡ kind }
{
    match kind {
        0 => Identity::This,
        1 => Identity::Super,
        _ => Identity::Dollar,
    }
}

// A use of an object's `this`. Of what the use changes only the dependence is taken, so that the counts are seen to stay.
fn use_object(locals: &[u32], st: AnalysisStack, which: Identity, id: LocalId) -> AnalysisStack
    requires { (16 * st.locals ≤ length locals.now) × (id.0 < st.locals) }
    ensures { UsedObject result locals.now st (kind_of which) id.0 }
{
    let touched = touch_object(locals, st, id);
    let after = AnalysisStack {
        taint: touched.taint,
        ..st
    };
    match which {
        Identity::This => AnalysisStack {
            self_used: true,
            ..after
        },
        Identity::Super => AnalysisStack {
            super_used: true,
            ..after
        },
        Identity::Dollar => AnalysisStack {
            dollar_used: true,
            ..after
        },
    }
}

// The local of self, super or $ inside an object.
#[tactic(auto, unfolding(crate::specs::Answers::identity_id))]
fn identity_id(which: Identity, here: Place) -> LocalId
    ensures { result.0 ≡ identity_id (kind_of which) here }
{
    match which {
        Identity::This | Identity::Super => here.this_local,
        Identity::Dollar => here.dollar_alias,
    }
}

// self, super or $: inside an object the local that it stands for is used, whose slot is still to be written, or `SU` is;
// outside error 3, 4 or 5 and a bad place.
fn use_identity(
    tree: &[u8],
    out: &mut [u8],
    diagnostics: &mut [u8],
    locals: &[u32],
    st: AnalysisStack,
    at: usize,
    here: Place,
) -> Used
    requires { (at + 10 ≤ length tree.now) × (number_at tree.now (at + 2) < 3) × (Stands here st) × (16 * st.locals ≤
        length locals.now) }
    ensures { Uses result out.old out.new diagnostics.old diagnostics.new locals.now locals.now st at (λ limits σ.
        identity_step limits tree.now at (place_of here) σ) }
{
    let kind = number_at(tree, at + offsets::ID_KIND);
    if here.in_object {
        let which = identity_of(kind);
        let id = identity_id(which, here);
        let after = use_object(locals, st, which, id);
        if which == Identity::Super {
            return Ok((emit(out, after, at, b"SU", &[])?, None));
        }
        return Ok((after, Some(id)));
    }
    let span = number_at(tree, at + offsets::ID_SPAN);
    let code = Code::SelfOutside as u32 + kind;
    let told = bad_place(out, diagnostics, st, at, code, 0, span, kind)?;
    Ok((told, None))
}

// A use of a local, of whose changes to the state only the dependence is taken, as above.
fn use_local(locals: &mut [u32], st: AnalysisStack, depth: u32, id: LocalId) -> AnalysisStack
    requires { (16 * st.locals ≤ length locals.old) × (id.0 < st.locals) }
    ensures { UsedLocal result locals.old locals.new st depth id.0 }
{
    let touched = touch_local(locals, st, depth, id);
    AnalysisStack {
        taint: touched.taint,
        ..st
    }
}

// The newest local with the name is used, whose slot is still to be written; where there is none, error 1 and a bad place.
fn use_variable(
    tree: &[u8],
    out: &mut [u8],
    diagnostics: &mut [u8],
    locals: &mut [u32],
    st: AnalysisStack,
    at: usize,
    here: Place,
) -> Used
    requires { (at + 10 ≤ length tree.now) × (16 * st.locals ≤ length locals.old) }
    ensures { Uses result out.old out.new diagnostics.old diagnostics.new locals.old locals.new st at (λ limits σ.
        variable_step limits tree.now at (place_of here) σ) }
{
    let name = number_at(tree, at + offsets::VA_NAME);
    let Some(id) = newest(locals, name, 0, st.locals as usize) else {
        let span = number_at(tree, at + offsets::VA_SPAN);
        let code = Code::Undefined as u32;
        let bad = BadKind::Name as u32;
        let told = bad_place(out, diagnostics, st, at, code, name, span, bad)?;
        return Ok((told, None));
    };
    let after = use_local(locals, st, here.depth, id);
    Ok((after, Some(id)))
}

// A name's record up to its slot, by its mark.
fn use_name(
    tree: &[u8],
    out: &mut [u8],
    diagnostics: &mut [u8],
    locals: &mut [u32],
    st: AnalysisStack,
    at: usize,
    mark: u32,
    here: Place,
) -> Used
    requires { (at + 10 ≤ length tree.now) × (mark ≡ code identity → number_at tree.now (at + 2) < 3) × (Stands here st)
        × (16 * st.locals ≤ length locals.old) }
    ensures { Uses result out.old out.new diagnostics.old diagnostics.new locals.old locals.new st at (λ limits σ.
        name_step limits tree.now mark at (place_of here) σ) }
{
    match mark {
        ID => use_identity(tree, out, diagnostics, locals, st, at, here),
        _ => use_variable(tree, out, diagnostics, locals, st, at, here),
    }
}

// self, super or $ where the mark is `ID`, and else a variable. The slot is written in one place for both, so that the
// compiler inlines it.
pub fn analyze_name(
    tree: &[u8],
    out: &mut [u8],
    diagnostics: &mut [u8],
    locals: &mut [u32],
    frames: &[u32],
    captures: &mut [u32],
    limits: Limits,
    st: AnalysisStack,
    at: usize,
    mark: u32,
    here: Place,
) -> Walked
    requires at_in_bounds { (at + 10 ≤ length tree.now) × (mark ≡ code identity → number_at tree.now (at + 2) < 3)
        × (Stands here st) × (16 * st.locals ≤ length locals.old) }
    requires kept { (Kept st.frames frames.now st.captures captures.old) × (16 * limits.max_captures ≤ length
        captures.old) }
    ensures { NameAnalyzed result tree.now out.old out.new diagnostics.old diagnostics.new locals.old locals.new
        frames.now captures.old captures.new limits st at mark here }
{
    let next = at + offsets::VA_SIZE;
    let (used, slot) = use_name(tree, out, diagnostics, locals, st, at, mark, here)?;
    let Some(id) = slot else {
        return Ok((used, next));
    };
    let written = emit_slot(out, frames, captures, limits, used, at, id)?;
    Ok((written, next))
}

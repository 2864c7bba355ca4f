// Steps on the names of the frame on top, over the state and the lent tables: a name found, a local defined.

#![tactic(auto)]

ghost use Rattle.std.specs.Prelude.{◌≡◌, ℕ, ◌*◌, ◌-◌, ◌<◌, ◌≤◌, length};
ghost use Rattle.table_rows.specs.Entries.{number};
ghost use Rattle.step_locals.specs.Answers.{FirstInFrame, IsTaken, CountedLocal, PushedLocal, PushedInFrame, DefinedNew, DefinedThis};

use find_name::newest;
use refusal::{Reason, Refusal};
use state::{AnalysisStack, Limits, Step};
use table_frames::{frame_at, put_frame};
use table_locals::put_local;
use value_local::{Binding, LocalDefinition, LocalId};

// The id of the first local of the frame on top.
pub fn first_in_frame(frames: &[u32], st: AnalysisStack) -> u32
    requires { 16 * st.frames ≤ length frames.now }
    ensures { FirstInFrame result frames.now st }
{
    let n = st.frames;
    if n == 0 {
        return 0;
    }
    let top = frame_at(frames, n - 1);
    top.first_local
}

// Whether the frame on top has defined the name.
pub fn is_taken(locals: &[u32], frames: &[u32], st: AnalysisStack, name: u32) -> bool
    requires { (16 * st.locals ≤ length locals.now) × (16 * st.frames ≤ length frames.now) × ((f : ℕ) → f < st.frames
        → number frames.now f 1 ≤ st.locals) }
    ensures { IsTaken result locals.now frames.now st name }
{
    let first = first_in_frame(frames, st);
    let n = st.locals - first;
    newest(locals, name, first as usize, n as usize).is_some()
}

// A local after the others, where L allows.
pub fn push_local(
    locals: &mut [u32],
    limits: Limits,
    st: AnalysisStack,
    place: usize,
    l: LocalDefinition,
) -> Step
    requires { 16 * limits.max_locals ≤ length locals.old }
    ensures { PushedLocal result locals.old locals.new limits st place l }
{
    let n = st.locals;
    if limits.max_locals <= n {
        return Err(Refusal {
            reason: Reason::LocalLimit,
            place,
        });
    }
    put_local(locals, LocalId(n), l);
    Ok(AnalysisStack {
        locals: n + 1,
        ..st
    })
}

// The frame on top has one local more.
fn count_local(frames: &mut [u32], st: AnalysisStack)
    requires { (16 * st.frames ≤ length frames.old) × (0 < st.frames) × (number frames.old (st.frames - 1) 2 < 65535) }
    ensures { CountedLocal frames.old frames.new st }
{
    let i = st.frames - 1;
    let mut top = frame_at(frames, i);
    top.n_locals += 1;
    put_frame(frames, i, top);
}

// A local of the frame on top.
pub fn push_in_frame(
    locals: &mut [u32],
    frames: &mut [u32],
    limits: Limits,
    st: AnalysisStack,
    place: usize,
    l: LocalDefinition,
) -> Step
    requires { (16 * limits.max_locals ≤ length locals.old) × (16 * st.frames ≤ length frames.old) × (0 < st.frames) ×
        (number frames.old (st.frames - 1) 2 < 65535) }
    ensures { PushedInFrame result locals.old locals.new frames.old frames.new limits st place l }
{
    count_local(frames, st);
    push_local(locals, limits, st, place, l)
}

// A name that the frame on top has not defined.
pub fn define_new(
    locals: &mut [u32],
    frames: &mut [u32],
    limits: Limits,
    st: AnalysisStack,
    place: usize,
    name: u32,
    span: u32,
    depth: u32,
) -> Step
    requires { (16 * limits.max_locals ≤ length locals.old) × (16 * st.frames ≤ length frames.old) × (0 < st.frames) ×
        (place < 4294967296) }
    ensures { DefinedNew result locals.old locals.new frames.old frames.new limits st place name span depth }
{
    let top = frame_at(frames, st.frames - 1);
    if 65535 <= top.n_locals {
        return Err(Refusal {
            reason: Reason::TooManyNames,
            place,
        });
    }
    let binding = Binding::Record(place as u32);
    let l = LocalDefinition::new(binding, Some(name), span, depth, false);
    push_in_frame(locals, frames, limits, st, place, l)
}

// An object's `this`, which no name finds.
pub fn define_this(
    locals: &mut [u32],
    frames: &mut [u32],
    limits: Limits,
    st: AnalysisStack,
    place: usize,
    depth: u32,
) -> Step
    requires { (16 * limits.max_locals ≤ length locals.old) × (16 * st.frames ≤ length frames.old) × (0 < st.frames) ×
        (number frames.old (st.frames - 1) 2 < 65535) × (place < 4294967296) }
    ensures { DefinedThis result locals.old locals.new frames.old frames.new limits st place depth }
{
    let binding = Binding::Record(place as u32);
    let l = LocalDefinition::new(binding, None, 0, depth, true);
    push_in_frame(locals, frames, limits, st, place, l)
}

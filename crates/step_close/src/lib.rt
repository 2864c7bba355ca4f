// How a defining frame ends: its locals are settled, judged and forgotten, its shape is written, and the record of the local, function or object.

#![tactic(auto)]

ghost use Rattle.std.specs.Prelude.{◌≡◌, ◌*◌, ◌≤◌, length, take, drop};
ghost use Rattle.law_runs.specs.Steps.{gives_argument};
ghost use Rattle.state.specs.Seen.{contents_within, SameWithin, OnlyRead};
ghost use Rattle.step_close.specs.Answers.{ForgottenNames, Finishable, FrameFinished, LocalFinished, ObjectFinished, FunctionFinished};

use settling::Use;
use state::{AnalysisStack, Limits, Naming, Step, Walked, Within};
use step_frame::close_frame;
use step_judge::{judge_all, settle_frame};
use step_locals::first_in_frame;
use step_record::{FunctionEnd, ObjectEnd, leave_object, name_function};
use step_write::emit;

// The names of the frame on top go, and the references kept since there were `before` of them.
fn forget_names(frames: &[u32], st: AnalysisStack, before: u32) -> AnalysisStack
    requires { 16 * st.frames ≤ length frames.now }
    ensures { ForgottenNames result frames.now st before }
{
    let first = first_in_frame(frames, st);
    AnalysisStack {
        locals: first,
        references: before,
        ..st
    }
}

// The frame on top ends: its names are settled, judged and forgotten, and its shape is written.
pub fn finish_frame(
    within: &mut Within<'_>,
    limits: Limits,
    st: AnalysisStack,
    at: usize,
    kept: u32,
    before: u32,
) -> Step
    requires { Finishable (contents_within within.old) limits st kept before }
    ensures finished { FrameFinished result (contents_within within.old) (contents_within within.new) limits st at kept before }
    ensures same_buffers { SameWithin within.old within.new }
    ensures only_read { OnlyRead within.old within.new }
{
    let locals = &mut *within.locals;
    let settled = settle_frame::<Use>(locals, within.references, st, kept, before);
    let after = judge_all(within.diagnostics, locals, within.frames, settled, at)?;
    let forgotten = forget_names(within.frames, after, before);
    close_frame(within.out, within.frames, within.captures, forgotten, at)
}

// The end of a local's frame, and its record.
pub fn finish_local(
    within: &mut Within<'_>,
    limits: Limits,
    st: AnalysisStack,
    at: usize,
    kept: u32,
    before: u32,
    next: usize,
) -> Walked
    requires { Finishable (contents_within within.old) limits st kept before }
    ensures finished { LocalFinished result (contents_within within.old) (contents_within within.new) limits st at kept before next }
    ensures same_buffers { SameWithin within.old within.new }
    ensures only_read { OnlyRead within.old within.new }
{
    let after = finish_frame(within, limits, st, at, kept, before)?;
    Ok((emit(within.out, after, at, b"LO", &[kept])?, next))
}

// The end of an object's frame, and its record.
pub fn finish_object(
    within: &mut Within<'_>,
    limits: Limits,
    st: AnalysisStack,
    at: usize,
    before: u32,
    object: ObjectEnd,
    next: usize,
) -> Walked
    requires { Finishable (contents_within within.old) limits st object.kept before }
    ensures finished { ObjectFinished result (contents_within within.old) (contents_within within.new) limits st at before object next }
    ensures same_buffers { SameWithin within.old within.new }
    ensures only_read { OnlyRead within.old within.new }
{
    let after = finish_frame(within, limits, st, at, object.kept, before)?;
    Ok((leave_object(within.out, after, at, object)?, next))
}

// Whether a function keeps one parameter, with no default, and its body is the record of that one's slot.
fn gives_argument(out: &[u8], st: AnalysisStack, function: FunctionEnd) -> bool
    requires { st.out ≤ length out.now }
    ensures { result ≡ gives_argument function.defaults function.kept (drop function.body_start (take st.out out.now)) }
{
    function.kept == 1
        && !function.defaults
        && function.body_start <= st.out
        && &out[function.body_start..st.out] == b"LS\0\0\0\0".as_slice()
}

// The end of a function's frame, and its record.
pub fn finish_function(
    within: &mut Within<'_>,
    limits: Limits,
    st: AnalysisStack,
    at: usize,
    before: u32,
    function: FunctionEnd,
    naming: Naming,
    next: usize,
) -> Walked
    requires { Finishable (contents_within within.old) limits st function.kept before }
    ensures finished { FunctionFinished result (contents_within within.old) (contents_within within.new) limits st at before function
        naming next }
    ensures same_buffers { SameWithin within.old within.new }
    ensures only_read { OnlyRead within.old within.new }
{
    let out = &mut *within.out;
    let gives = gives_argument(out, st, function);
    let after = finish_frame(within, limits, st, at, function.kept, before)?;
    Ok((
        name_function(
            within.out,
            within.diagnostics,
            after,
            at,
            function,
            naming,
            gives,
        )?,
        next,
    ))
}

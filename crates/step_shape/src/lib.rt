// The frames of arrays, field values and assertions closed: the frame's shape, and the record after it.

#![tactic(auto)]

ghost use Rattle.resolver.specs.Kept.{Kept};
ghost use Rattle.step_shape.specs.Answers.{ClosedWith, ArrayClosed, ValueClosed, AssertionsClosed};

use state::{AnalysisStack, Walked};
use step_frame::close_frame;
use step_write::emit;

// The shape of the frame on top, and a record after it. The buffers stay beside the state: document 01 asks for that.
#[tactic(auto, using(crate::proofs::Closing::closed_on, step_emit::proofs::Laws::placed, step_emit::proofs::Laws::refused, crate::proofs::Closing::full, std::proofs::lemmas::Result::err_from_is_err_and))]
fn close_with(
    out: &mut [u8],
    frames: &[u32],
    captures: &mut [u32],
    st: AnalysisStack,
    at: usize,
    mark: &[u8; 2],
    ns: &[u32],
    next: usize,
) -> Walked
    requires { Kept st.frames frames.now st.captures captures.old }
    ensures { ClosedWith result out.old out.new frames.now captures.old captures.new st at mark.now ns.now next }
{
    let after = close_frame(out, frames, captures, st, at)?;
    Ok((emit(out, after, at, mark, ns)?, next))
}

// The shape of an array's frame, and the array's record.
#[tactic(auto, using(crate::proofs::Closing::array_closed))]
pub fn close_array(
    out: &mut [u8],
    frames: &[u32],
    captures: &mut [u32],
    st: AnalysisStack,
    at: usize,
    n: u32,
    next: usize,
) -> Walked
    requires { Kept st.frames frames.now st.captures captures.old }
    ensures { ArrayClosed result out.old out.new frames.now captures.old captures.new st at n next }
{
    close_with(out, frames, captures, st, at, b"AR", &[n], next)
}

// The shape of a field value's frame, and the value's record.
#[tactic(auto, using(crate::proofs::Closing::value_closed))]
pub fn close_value(
    out: &mut [u8],
    frames: &[u32],
    captures: &mut [u32],
    st: AnalysisStack,
    at: usize,
    next: usize,
) -> Walked
    requires { Kept st.frames frames.now st.captures captures.old }
    ensures { ValueClosed result out.old out.new frames.now captures.old captures.new st at next }
{
    close_with(out, frames, captures, st, at, b"FV", &[], next)
}

// The shape of the frame of an object's assertions.
#[tactic(auto, using(crate::proofs::Closing::assertions_closed, step_emit::proofs::Laws::placed, step_emit::proofs::Laws::refused, std::proofs::lemmas::Result::err_from_is_err_and))]
pub fn close_assertions(
    out: &mut [u8],
    frames: &[u32],
    captures: &mut [u32],
    st: AnalysisStack,
    at: usize,
    next: usize,
) -> Walked
    requires { Kept st.frames frames.now st.captures captures.old }
    ensures { AssertionsClosed result out.old out.new frames.now captures.old captures.new st at next }
{
    Ok((close_frame(out, frames, captures, st, at)?, next))
}

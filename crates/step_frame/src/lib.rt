// Frames opened, and closed with their shapes written.

#![tactic(auto)]

ghost use Rattle.std.specs.Prelude.{◌≡◌, [], ◌∷◌, ℕ, ◌*◌, ◌≤◌, ◌<◌, length};
ghost use Rattle.rules.specs.Numbers.{numbers_bytes};
ghost use Rattle.rules.specs.Writing.{pairs_of};
ghost use Rattle.table_captures.specs.Meaning.{captures_of, SmallSource};
ghost use Rattle.resolver.specs.Kept.{Kept};
ghost use Rattle.step_write.specs.Answers.{Behind};
ghost use Rattle.step_frame.specs.Answers.{shape_bytes, FrameOpened, FrameClosed};

use bytes_write::put_record;
use refusal::Reason;
use state::{AnalysisStack, Limits, Step};
use step_write::emit;
use table_captures::{slot_kind, slot_number};

// A frame on those that are open, or refusal 7.
#[tactic(auto, using(crate::proofs::Opening::frame_opened, crate::proofs::Opening::frame_refused))]
pub fn open_frame(
    frames: &mut [u32],
    limits: Limits,
    st: AnalysisStack,
    place: usize,
    is_defining: bool,
) -> Step
    requires { 16 * limits.max_frames ≤ length frames.old }
    ensures { FrameOpened result frames.old frames.new limits st place is_defining }
{
    let n = st.frames;
    if limits.max_frames <= n {
        return Err(Reason::FrameLimit.at(place));
    }
    resolver::push_frame(frames, n, is_defining, st.locals, 0, st.captures);
    Ok(AnalysisStack {
        frames: n + 1,
        ..st
    })
}

// Two numbers after the bytes that were used. The two bytes before them are put again, because a record begins with two.
#[tactic(auto, using(crate::proofs::Closing::pair_behind))]
fn put_pair(out: &mut [u8], used: usize, a: u32, b: u32) -> Option<usize>
    requires { (2 ≤ used) × (used ≤ length out.old) }
    ensures { Behind result out.old out.new used (numbers_bytes (a ∷ b ∷ [])) }
{
    let from = used - 2;
    let before = [out[from], out[from + 1]];
    put_record(out, from, &before, &[a, b])
}

// The sources of the owner's captures, of which none stands before `from`, after the bytes that were used.
fn put_pairs(
    out: &mut [u8],
    used: usize,
    captures: &[u32],
    from: u32,
    count: u32,
    owner: u32,
) -> Option<usize>
    requires le_used { (2 ≤ used) × (used ≤ length out.old) }
    requires count_in_bounds { (16 * count ≤ length captures.now) × (from ≤ count) × (captures_of owner from
        captures.now ≡ []) }
    requires by_index { (i : ℕ) → i < count → SmallSource captures.now i }
    ensures { Behind result out.old out.new used (numbers_bytes (pairs_of (captures_of owner count captures.now))) }
{
    let mut to = used;
    let mut at = from;
    while let Some((i, source)) = find_capture::next_capture(captures, at, count, owner) {
        to = put_pair(out, to, slot_kind(source), slot_number(source))?;
        at = i;
    }
    Some(to)
}

// The shape of the top of n frames after the bytes that were used.
fn put_shape(
    out: &mut [u8],
    used: usize,
    frames: &[u32],
    captures: &[u32],
    n: u32,
    count: u32,
) -> Option<usize>
    requires { (Kept n frames.now count captures.now) × (0 < n) }
    ensures { Behind result out.old out.new used (shape_bytes n frames.now count captures.now) }
{
    let owner = n - 1;
    let frame = table_frames::frame_at(frames, owner);
    let from = frame.captures_from;
    let k = find_capture::n_captures(captures, from, count, owner);
    let next = put_record(out, used, b"SH", &[frame.n_locals, k])?;
    put_pairs(out, next, captures, from, count, owner)
}

// The shape of the top frame, or refusal 9; then the frame is closed. Buffers stay beside the state: document 01 asks for state by value beside lent tables.
#[tactic(auto, using(crate::proofs::Closing::none_closed, crate::proofs::Closing::frame_closed, crate::proofs::Closing::frame_full, std::proofs::lemmas::Result::err_from_is_err_and))]
pub fn close_frame(
    out: &mut [u8],
    frames: &[u32],
    captures: &mut [u32],
    st: AnalysisStack,
    place: usize,
) -> Step
    requires { Kept st.frames frames.now st.captures captures.old }
    ensures { FrameClosed result out.old out.new frames.now captures.old captures.new st place }
{
    let n = st.frames;
    // With no frame the rules write a shape all the same, so that no caller has to show that one is open.
    if n == 0 {
        return emit(out, st, place, b"SH", &[0, 0]);
    }
    let written = put_shape(out, st.out, frames, captures, n, st.captures);
    let end = written.ok_or(Reason::OutputFull.at(place))?;
    Ok(AnalysisStack {
        out: end,
        frames: n - 1,
        captures: resolver::pop_frame(frames, captures, n, st.captures),
        ..st
    })
}

// The open frames and what they have captured: a frame opened, a local resolved to a slot, a frame closed.

#![tactic(auto)]

ghost use Rattle.std.specs.Prelude.{ℕ, ◌+◌, ◌*◌, ◌<◌, ◌≤◌, length, MatchOption};
ghost use Rattle.table_rows.specs.Entries.{number};
ghost use Rattle.resolver.specs.Kept.{KeptBelow, Kept};
ghost use Rattle.resolver.specs.Answers.{Home, NoHome, HeldBy, Opened, CapturedFrom, Resolves, ResolvesToSlot, Closed};

use find_capture::capture_of;
use refusal::Reason;
use table_captures::{Capture, CaptureSlot, LSlot, LocalSlot, capture_at, owner_at, put_capture};
use table_frames::{Frame, frame_at, put_frame};
use value_local::LocalId;

// The tables, n and count stay parameters, and `Kept` their clause: document 01 asks for state by value beside lent tables.

// A new frame on the n that are open.
pub fn push_frame(
    frames: &mut [u32],
    n: u32,
    is_defining: bool,
    first_local: u32,
    n_locals: u32,
    count: u32,
)
    requires { (16 * n + 16 ≤ length frames.old) × (n_locals ≤ 65535) }
    ensures { Opened frames.old frames.new n is_defining first_local n_locals count }
{
    put_frame(
        frames,
        n,
        Frame {
            is_defining,
            first_local,
            n_locals,
            captures_from: count,
        },
    );
}

// The frame that the top of n frames defines in: itself, or the nearest defining frame beneath.
fn defining(frames: &[u32], n: u32) -> Option<Frame>
    requires { (16 * n ≤ length frames.now) × ((f : ℕ) → f < n → number frames.now f 2 ≤ 65535) }
    ensures { MatchOption result (NoHome frames.now n) (Home frames.now n) }
{
    for i in (0..n).rev() {
        let f = frame_at(frames, i);
        if f.is_defining {
            return Some(f);
        }
    }
    None
}

// The slot of an id that the top of n frames defines.
fn resolve(frames: &[u32], n: u32, id: LocalId) -> Option<LocalSlot>
    requires { (16 * n ≤ length frames.now) × ((f : ℕ) → f < n → number frames.now f 2 ≤ 65535) }
    ensures { HeldBy result frames.now n id.0 }
{
    let home = defining(frames, n)?;
    let own = id.0.checked_sub(home.first_local)?;
    (own < home.n_locals).then(|| LocalSlot(own as u16))
}

// A capture more for its owner, which has k.
fn add_capture(
    captures: &mut [u32],
    count: u32,
    most: u32,
    k: u32,
    taken: Capture,
) -> Result<(LSlot, u32), Reason>
    requires { 16 * most ≤ length captures.old }
    ensures { CapturedFrom taken.source count result captures.old captures.new most taken.owner k taken.target.0 }
{
    let Ok(own) = u16::try_from(k) else {
        return Err(Reason::TooManyCaptures);
    };
    if most <= count {
        return Err(Reason::CaptureLimit);
    }
    put_capture(captures, count, taken);
    Ok((LSlot::Capture(CaptureSlot(own)), count + 1))
}

// An id resolved in the top of the first n frames: its slot and the log's length now.
fn resolve_at(
    frames: &[u32],
    captures: &mut [u32],
    n: u32,
    count: u32,
    most: u32,
    id: LocalId,
) -> Result<(LSlot, u32), Reason>
    requires { (KeptBelow n frames.now count captures.old) × (16 * most ≤ length captures.old) }
    ensures { Resolves result n frames.now count captures.old captures.new most id.0 }
{
    if n == 0 {
        return Ok((LSlot::Local(LocalSlot(0)), count));
    }
    if let Some(slot) = resolve(frames, n, id) {
        return Ok((LSlot::Local(slot), count));
    }
    let idx = n - 1;
    let from = frame_at(frames, idx).captures_from;
    match capture_of(captures, from, count, idx, id) {
        Ok(slot) => Ok((LSlot::Capture(slot), count)),
        Err(k) => {
            let (source, count) = resolve_at(frames, captures, idx, count, most, id)?;
            let taken = Capture {
                owner: idx,
                target: id,
                source,
            };
            add_capture(captures, count, most, k, taken)
        }
    }
}

// An id resolved in the top frame. Most are of the frame that it defines in, so that these do without the recursive call.
pub fn resolve_to_slot(
    frames: &[u32],
    captures: &mut [u32],
    n: u32,
    count: u32,
    most: u32,
    id: LocalId,
) -> Result<(LSlot, u32), Reason>
    requires { (Kept n frames.now count captures.old) × (16 * most ≤ length captures.old) }
    ensures { ResolvesToSlot result n frames.now count captures.old captures.new most id.0 }
{
    match resolve(frames, n, id) {
        Some(slot) => Ok((LSlot::Local(slot), count)),
        None => resolve_at(frames, captures, n, count, most, id),
    }
}

// The top frame is closed: its captures leave the log, and the others close up. Answers the log's length.
pub fn pop_frame(frames: &[u32], captures: &mut [u32], n: u32, count: u32) -> u32
    requires { (Kept n frames.now count captures.old) × (0 < n) }
    ensures { Closed n frames.now count captures.old result captures.new }
{
    let top = n - 1;
    let from = frame_at(frames, top).captures_from;
    let mut to = from;
    for i in from..count {
        if owner_at(captures, i) != top {
            put_capture(captures, to, capture_at(captures, i));
            to += 1;
        }
    }
    to
}

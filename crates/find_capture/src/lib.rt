// The log of what the open frames have captured: a frame's captures searched and counted.

#![tactic(auto)]

ghost use Rattle.std.specs.Prelude.{◌≡◌, [], ℕ, ◌*◌, ◌<◌, ◌≤◌, length};
ghost use Rattle.table_captures.specs.Meaning.{captures_of, SmallSource};
ghost use Rattle.find_capture.specs.Answers.{Searched, Follows};

use table_captures::{CaptureSlot, LSlot, capture_at, owner_at, target_at};
use value_local::LocalId;

// The log, `from`, `count` and the owner stay parameters: a struct with their fact would ask more of `next_capture`, which takes any `at`.

// The owner's capture of an id, or how many captures it has, which is the slot that the next one gets; none stands before `from`.
pub fn capture_of(
    captures: &[u32],
    from: u32,
    count: u32,
    owner: u32,
    id: LocalId,
) -> Result<CaptureSlot, u32>
    requires { (16 * count ≤ length captures.now) × (from ≤ count) × (captures_of owner from captures.now ≡ []) ×
        (length (captures_of owner count captures.now) ≤ 65536) }
    ensures { Searched result captures.now owner count id.0 }
{
    let mut k: u32 = 0;
    for i in from..count {
        if owner_at(captures, i) == owner {
            let target = target_at(captures, i);
            if target.0 == id.0 {
                return Ok(CaptureSlot(k as u16));
            }
            k += 1;
        }
    }
    Err(k)
}

// How many captures the owner has; none stands before `from`.
pub fn n_captures(captures: &[u32], from: u32, count: u32, owner: u32) -> u32
    requires { (16 * count ≤ length captures.now) × (from ≤ count) × (captures_of owner from captures.now ≡ []) }
    ensures { result ≡ length (captures_of owner count captures.now) }
{
    (from..count)
        .filter(|&i| owner_at(captures, i) == owner)
        .count() as u32
}

// The owner's next capture in the log from `at` on: where the log goes on, and the source.
pub fn next_capture(captures: &[u32], at: u32, count: u32, owner: u32) -> Option<(u32, LSlot)>
    requires { (16 * count ≤ length captures.now) × (at ≤ count) × ((i : ℕ) → i < count → SmallSource captures.now i) }
    ensures { Follows result captures.now owner at count }
{
    (at..count)
        .find(|&i| owner_at(captures, i) == owner)
        .map(|i| (i + 1, capture_at(captures, i).source))
}

// Slots, and the log of what the open frames have captured: its entries got and put.

#![tactic(auto)]

ghost use Rattle.std.specs.Prelude.{◌≡◌, ℕ, ◌+◌, ◌*◌, ◌<◌, ◌≤◌, length};
ghost use Rattle.rules.specs.Writing.{slot_number};
ghost use Rattle.table_captures.specs.Meaning.{slot, slot_kind, slot_of, logged, logged_at, log_at, log_of, SmallSource};
ghost use Rattle.table_captures.specs.Answers.{PutCapture};

use table_rows::{entry_number, put_entry};
use value_local::LocalId;

// `put_capture` stores these numbers in this order.
const OWNER: usize = 0;

const TARGET: usize = 1;

const SOURCE_KIND: usize = 2;

const SOURCE_NUMBER: usize = 3;

#[derive(Clone, Copy, Debug, PartialEq, Eq)]
pub struct LocalSlot(pub u16);

#[derive(Clone, Copy, Debug, PartialEq, Eq)]
pub struct CaptureSlot(pub u16);

#[derive(Clone, Copy, Debug, PartialEq, Eq)]
pub enum LSlot {
    Local(LocalSlot),
    Capture(CaptureSlot),
}

// An entry of the log: the frame that captured, by its position, what it captured, and where the frame beneath has it.
#[derive(Clone, Copy, Debug, PartialEq, Eq)]
pub struct Capture {
    pub owner: u32,
    pub target: LocalId,
    pub source: LSlot,
}

// 0 for a local, 1 for a capture: the numbers that an entry of the log and the output have.
#[tactic(auto, unfolding(crate::specs::Meaning::slot, crate::specs::Meaning::slot_kind))]
pub fn slot_kind(s: LSlot) -> u32
    ensures { result ≡ slot_kind (slot s) }
{
    match s {
        LSlot::Local(_) => 0,
        LSlot::Capture(_) => 1,
    }
}

// A slot's own number.
#[tactic(auto, unfolding(crate::specs::Meaning::slot, rules::specs::Writing::slot_number))]
pub fn slot_number(s: LSlot) -> u32
    ensures { (result ≡ slot_number (slot s)) × (result ≤ 65535) }
{
    match s {
        LSlot::Local(l) => u32::from(l.0),
        LSlot::Capture(c) => u32::from(c.0),
    }
}

// The slot of a kind and a number.
#[tactic(auto, unfolding(crate::specs::Meaning::slot, crate::specs::Meaning::slot_of))]
fn slot_of(kind: u32, own: u32) -> LSlot
    requires { own ≤ 65535 }
    ensures { slot result ≡ slot_of kind own }
{
    let own = own as u16;
    if kind == 0 {
        LSlot::Local(LocalSlot(own))
    } else {
        LSlot::Capture(CaptureSlot(own))
    }
}

// The frame that captured. A search looks at one number of an entry, so that this and the next read no other.
#[tactic(auto, using(crate::proofs::Laws::logged_read))]
pub fn owner_at(captures: &[u32], i: u32) -> u32
    requires { 16 * i + 16 ≤ length captures.now }
    ensures { result ≡ (logged_at captures.now i).owner }
{
    entry_number(captures, i, OWNER)
}

// What was captured.
#[tactic(auto, using(crate::proofs::Laws::logged_read))]
pub fn target_at(captures: &[u32], i: u32) -> LocalId
    requires { 16 * i + 16 ≤ length captures.now }
    ensures { result.0 ≡ (logged_at captures.now i).capture.target }
{
    LocalId(entry_number(captures, i, TARGET))
}

// The capture of an entry.
pub fn capture_at(captures: &[u32], i: u32) -> Capture
    requires { (16 * i + 16 ≤ length captures.now) × SmallSource captures.now i }
    ensures { (n : ℕ) → i < n → logged result ≡ log_at (log_of n captures.now) i }
{
    Capture {
        owner: owner_at(captures, i),
        target: target_at(captures, i),
        source: slot_of(
            entry_number(captures, i, SOURCE_KIND),
            entry_number(captures, i, SOURCE_NUMBER),
        ),
    }
}

// A capture into an entry.
pub fn put_capture(captures: &mut [u32], i: u32, c: Capture)
    requires { 16 * i + 16 ≤ length captures.old }
    ensures at { PutCapture captures.old captures.new i (logged c) }
    ensures small { slot_number (slot c.source) ≤ 65535 }
{
    put_entry(
        captures,
        i,
        [
            c.owner,
            c.target.0,
            slot_kind(c.source),
            slot_number(c.source),
        ],
    );
}

// A frame's entry got and put.

#![tactic(auto)]

ghost use Rattle.std.specs.Prelude.{ℕ, ◌+◌, ◌*◌, ◌<◌, ◌≤◌, ◌≡◌, length};
ghost use Rattle.table_rows.specs.Entries.{number};
ghost use Rattle.table_frames.specs.Answers.{FrameAt};

use table_rows::{entry_number, put_entry};

// `put_frame` stores these numbers in this order.
const IS_DEFINING: usize = 0;

const FIRST_LOCAL: usize = 1;

const N_LOCALS: usize = 2;

const CAPTURES_FROM: usize = 3;

#[derive(Clone, Copy, Debug, PartialEq, Eq)]
pub struct Frame {
    pub is_defining: bool,
    pub first_local: u32,
    pub n_locals: u32,
    pub captures_from: u32,
}

// The entry i of the frames.
pub fn frame_at(frames: &[u32], i: u32) -> Frame
    requires { 16 * i + 4 ≤ length frames.now }
    ensures { FrameAt frames.now i result }
{
    Frame {
        is_defining: entry_number(frames, i, IS_DEFINING) == 1,
        first_local: entry_number(frames, i, FIRST_LOCAL),
        n_locals: entry_number(frames, i, N_LOCALS),
        captures_from: entry_number(frames, i, CAPTURES_FROM),
    }
}

// A frame becomes the entry i.
#[tactic(auto, using(table_rows::proofs::Storing::number_same))]
pub fn put_frame(frames: &mut [u32], i: u32, f: Frame)
    requires { 16 * i + 4 ≤ length frames.old }
    ensures at { FrameAt frames.new i f }
    ensures others { (k j : ℕ) → (k ≡ i → ⊥) → j < 16 → number frames.new k j ≡ number frames.old k j }
{
    put_entry(
        frames,
        i,
        [
            f.is_defining as u32,
            f.first_local,
            f.n_locals,
            f.captures_from,
        ],
    );
}

// What a call is refused for before anything is analysed: its tables, its tree's length, its tree.

#![tactic(auto)]

ghost use Rattle.std.specs.Prelude.{◌&&◌, List, ◌≡◌, ℕ, ◌*◌, length, leb};
ghost use Rattle.state.specs.Seen.{buffers};
ghost use Rattle.call_enter.specs.Answers.{Entered};

use refusal::{Reason, Refusal};
use state::Limits;
use tree::first_walk;

// Whether each table has sixteen numbers for each entry of its limit.
fn tables_fit(
    locals: &[u32],
    frames: &[u32],
    captures: &[u32],
    references: &[u32],
    limits: Limits,
) -> bool
    ensures { result ≡ (leb (16 * limits.max_locals) (length locals.now) && leb (16 * limits.max_frames) (length
        frames.now) && leb (16 * limits.max_captures) (length captures.now) && leb (16 * limits.max_references)
        (length references.now)) }
{
    16 * (limits.max_locals as usize) <= locals.len()
        && 16 * (limits.max_frames as usize) <= frames.len()
        && 16 * (limits.max_captures as usize) <= captures.len()
        && 16 * (limits.max_references as usize) <= references.len()
}

// 13, then 14, then the first walk; only a tree that passes is analysed.
pub fn enter(
    tree: &[u8],
    locals: &[u32],
    frames: &[u32],
    captures: &[u32],
    references: &[u32],
    limits: Limits,
) -> Result<usize, Refusal>
    ensures { (out diagnostics : List ℕ) → Entered result tree.now (buffers out diagnostics locals.now frames.now
        captures.now references.now) limits }
{
    if !tables_fit(locals, frames, captures, references, limits) {
        return Err(Reason::ShortTable.at(0));
    }
    if 16777216 < tree.len() {
        return Err(Reason::LongTree.at(0));
    }
    first_walk(tree)
}

// The whole call: what it answers, and what it leaves in every buffer lent to it, for every input.

#![tactic(auto)]

ghost use Rattle.std.specs.Prelude.{◌≡◌};
ghost use Rattle.rules.specs.Call.{call};
ghost use Rattle.state.specs.Seen.{buffers, contents, SameBuffers};
ghost use Rattle.call_root.specs.Answers.{lent, left};
ghost use Rattle.call_root.specs.Answers as answers;
ghost use Rattle.call_enter.specs.Answers.{Rooted};
ghost use Rattle.analyze.specs.Answers.{Ran};

use bytes_read::number_at;
use bytes_records::offsets;
use call_enter::enter;
use call_root::{AnalysisReport, accepted, at_root, begin_root, clear, refused};
use state::{Lent, Limits, Naming, Step};
use step_frame::close_frame;

// A tree that the first walk accepted: its externals and the root's frame, its expression, the root's shape.
fn walk_root(tree: &[u8], lent: &mut Lent<'_>, limits: Limits) -> Step
    requires { Rooted tree.now (contents lent.old) limits }
    ensures ran { Ran result tree.now (contents lent.old) (contents lent.new) limits }
    ensures same_buffers { SameBuffers lent.old lent.new }
{
    let n = number_at(tree, offsets::TREE_COUNT);
    let st = begin_root(tree, lent.locals, lent.frames, limits, n)?;
    let root = 6 + 4 * (n as usize);
    let (after, _) = walkers::analyze(
        tree,
        lent,
        limits,
        st,
        root,
        200,
        Naming::Unnamed,
        at_root(),
    )?;
    let frames = &mut *lent.frames;
    close_frame(lent.out, frames, lent.captures, after, 0)
}

// Only a tree that passes is analysed.
fn run(tree: &[u8], lent: &mut Lent<'_>, limits: Limits) -> Step
    ensures ran { Ran result tree.now (contents lent.old) (contents lent.new) limits }
    ensures same_buffers { SameBuffers lent.old lent.new }
{
    let locals = &mut *lent.locals;
    let frames = &mut *lent.frames;
    let captures = &mut *lent.captures;
    let references = &mut *lent.references;
    enter(tree, locals, frames, captures, references, limits)?;
    walk_root(tree, lent, limits)
}

// The call over what is lent: the report, and the six buffers cleared after what they keep.
fn call_lent(tree: &[u8], lent: &mut Lent<'_>, limits: Limits) -> AnalysisReport
    ensures called { left result (contents lent.new) ≡ call (answers.lent tree.now (contents lent.old) limits) }
    ensures same_buffers { SameBuffers lent.old lent.new }
{
    match run(tree, lent, limits) {
        Ok(st) => {
            clear(lent, st.out, st.diagnostics);
            accepted(st)
        }
        Err(why) => {
            clear(lent, 0, 0);
            refused(why.reason.number(), why.place)
        }
    }
}

// The call. Whatever is lent, the report and all six buffers are those of the rules' call.
pub fn analyze_root(
    tree: &[u8],
    out: &mut [u8],
    diagnostics: &mut [u8],
    locals: &mut [u32],
    frames: &mut [u32],
    captures: &mut [u32],
    references: &mut [u32],
    limits: Limits,
) -> AnalysisReport
    ensures { left result (buffers out.new diagnostics.new locals.new frames.new captures.new references.new) ≡ call
        (lent tree.now (buffers out.old diagnostics.old locals.old frames.old captures.old references.old) limits) }
{
    let mut all = Lent {
        out,
        diagnostics,
        locals,
        frames,
        captures,
        references,
    };
    call_lent(tree, &mut all, limits)
}

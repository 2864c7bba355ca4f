// What stands around the walk of the root: the state before it, the externals and the root's frame, the report, and the buffers cleared.

#![tactic(auto)]

ghost use Rattle.std.specs.Prelude.{false, ◌≡◌, ◌+◌, ◌*◌, ◌≤◌, length};
ghost use Rattle.rules.specs.Outcome.{refuse};
ghost use Rattle.rules.specs.Walk.{at_root};
ghost use Rattle.rules.specs.Call.{report_of};
ghost use Rattle.state.specs.Seen.{contents, SameBuffers};
ghost use Rattle.state.specs.Walks.{place_of};
ghost use Rattle.call_root.specs.Answers.{report_meaning, ReportsState, EmptyStack, DefinedExternals, OpenedRoot, BegunRoot, Cleared};

use bytes_read::number_at;
use bytes_write::fill_from;
use refusal::{Reason, Refusal};
use state::{AnalysisStack, Lent, Limits, Place, Step};
use step_locals::push_local;
use value_depths::AnalysisResult;
use value_local::{Binding, LocalDefinition, LocalId};

// What a call answers: 0 or a refusal's number, its place, and where nothing was refused the rest.
// Numbers, and no `Result`: so the contract of `analyze_root` has it, and the C interface.
#[derive(Clone, Copy)]
pub struct AnalysisReport {
    pub number: u32,
    pub place: usize,
    pub out_length: usize,
    pub diagnostics_length: usize,
    pub errored: bool,
    pub rounds: u64,
    pub depths: AnalysisResult,
}

// Nothing was met yet.
pub fn empty_stack() -> AnalysisStack
    ensures { EmptyStack result }
{
    AnalysisStack {
        locals: 0,
        frames: 0,
        captures: 0,
        references: 0,
        out: 0,
        diagnostics: 0,
        self_used: false,
        super_used: false,
        dollar_used: false,
        taint: AnalysisResult::no_dependence(),
        errored: false,
        rounds: 0,
    }
}

// Where the root stands: at depth 0, in no object.
pub fn at_root() -> Place
    ensures { (place_of result ≡ at_root) × (result.depth ≡ 0) × (result.in_object ≡ false) }
{
    Place {
        depth: 0,
        in_object: false,
        this_local: LocalId(0),
        dollar_alias: LocalId(0),
    }
}

// The report of a refusal.
pub fn refused(number: u32, place: usize) -> AnalysisReport
    ensures { report_meaning result ≡ report_of (refuse number place) }
{
    AnalysisReport {
        number,
        place,
        out_length: 0,
        diagnostics_length: 0,
        errored: false,
        rounds: 0,
        depths: AnalysisResult {
            object_dependent_depth: 0,
            local_dependent_depth: 0,
            local_dependent_depth_max: 0,
        },
    }
}

// The report of an analysis that ended in a state.
pub fn accepted(st: AnalysisStack) -> AnalysisReport
    ensures { ReportsState result st }
{
    AnalysisReport {
        number: 0,
        place: 0,
        out_length: st.out,
        diagnostics_length: st.diagnostics,
        errored: st.errored,
        rounds: st.rounds,
        depths: st.taint,
    }
}

// The tables become zero, and both buffers after what is kept of them.
pub fn clear(lent: &mut Lent<'_>, out_length: usize, diagnostics_length: usize)
    ensures cleared { Cleared out_length diagnostics_length (contents lent.old) (contents lent.new) }
    ensures same_buffers { SameBuffers lent.old lent.new }
{
    fill_from(lent.out, out_length, 0);
    fill_from(lent.diagnostics, diagnostics_length, 0);
    fill_from(lent.locals, 0, 0);
    fill_from(lent.frames, 0, 0);
    fill_from(lent.captures, 0, 0);
    fill_from(lent.references, 0, 0);
}

// The n externals, whose names stand after the tree's head.
pub fn define_externals(
    tree: &[u8],
    locals: &mut [u32],
    limits: Limits,
    st: AnalysisStack,
    n: u32,
) -> Step
    requires { (6 + 4 * n ≤ length tree.now) × (16 * limits.max_locals ≤ length locals.old) }
    ensures { DefinedExternals result tree.now locals.old locals.new limits st n }
{
    let mut reached = st;
    for i in 0..n {
        let name = number_at(tree, 6 + 4 * (i as usize));
        let l = LocalDefinition::new(Binding::External(i), Some(name), 0, 0, true);
        reached = push_local(locals, limits, reached, 0, l)?;
    }
    Ok(reached)
}

// The root's frame, whose locals are the n externals; or refusal 7.
pub fn open_root(frames: &mut [u32], limits: Limits, st: AnalysisStack, n: u32) -> Step
    requires { (16 * limits.max_frames ≤ length frames.old) × (st.frames ≡ 0) × (n ≤ 65535) }
    ensures { OpenedRoot result frames.old frames.new limits st n }
{
    if limits.max_frames == 0 {
        return Err(Refusal {
            reason: Reason::FrameLimit,
            place: 0,
        });
    }
    resolver::push_frame(frames, 0, true, 0, n, st.captures);
    Ok(AnalysisStack { frames: 1, ..st })
}

// The state in which the root's walk begins.
pub fn begin_root(
    tree: &[u8],
    locals: &mut [u32],
    frames: &mut [u32],
    limits: Limits,
    n: u32,
) -> Step
    requires { (6 + 4 * n ≤ length tree.now) × (n ≤ 65535) × (16 * limits.max_locals ≤ length locals.old) × (16 *
        limits.max_frames ≤ length frames.old) }
    ensures { BegunRoot result tree.now locals.old locals.new frames.old frames.new limits n }
{
    let st = empty_stack();
    let after = define_externals(tree, locals, limits, st, n)?;
    open_root(frames, limits, after, n)
}

// What a frame's locals were used for: settled by both loops, and judged.

#![tactic(auto)]

ghost use Rattle.std.specs.Prelude.{ℕ, ◌*◌, ◌<◌, ◌≤◌, length};
ghost use Rattle.table_rows.specs.Entries.{number};
ghost use Rattle.step_judge.specs.Answers.{Settleable, SettledFrame, Judged, JudgedAll};

use settling::{Propagate, settle};
use state::{AnalysisStack, Step};
use step_locals::first_in_frame;
use step_touch::could_be_hoisted;
use step_write::{Code, Level, report};
use table_locals::local_at;
use value_depths::NEVER;
use value_local::{LocalDefinition, LocalId};

// One of a frame's loops, over the references kept since there were `before` of them; its rounds are counted.
pub fn settle_frame<L: Propagate>(
    locals: &mut [u32],
    references: &[u32],
    st: AnalysisStack,
    kept: u32,
    before: u32,
) -> AnalysisStack
    requires { Settleable locals.old references.now st kept before }
    ensures { SettledFrame result locals.old locals.new references.now st L.rule kept before }
{
    let rounds = settle::<L>(
        locals,
        references,
        before as usize,
        st.references as usize,
        kept,
    );
    AnalysisStack {
        rounds: st.rounds + rounds as u64,
        ..st
    }
}

// Warning 7 for a name that is not used, 8 where only siblings use it, 9 where it could be hoisted.
#[tactic(auto, using(crate::proofs::Judging::judged_unnamed, crate::proofs::Judging::judged_sibling, crate::proofs::Judging::judged_unused, crate::proofs::Judging::judged_hoisted, crate::proofs::Judging::judged_fine))]
pub fn judge(diagnostics: &mut [u8], st: AnalysisStack, at: usize, l: LocalDefinition) -> Step
    ensures { Judged result diagnostics.old diagnostics.new st at l }
{
    let Some(name) = l.name else {
        return Ok(st);
    };
    if l.used_at_depth == NEVER {
        if l.used_by_sibling {
            let code = Code::UsedByUnused as u32;
            return report(diagnostics, st, at, Level::Warning, code, name, l.span);
        }
        return report(
            diagnostics,
            st,
            at,
            Level::Warning,
            Code::Unused as u32,
            name,
            l.span,
        );
    }
    if could_be_hoisted(l) {
        let code = Code::CouldBeHoisted as u32;
        return report(diagnostics, st, at, Level::Warning, code, name, l.span);
    }
    Ok(st)
}

// The locals of the frame on top are judged, the last first.
pub fn judge_all(
    diagnostics: &mut [u8],
    locals: &[u32],
    frames: &[u32],
    st: AnalysisStack,
    at: usize,
) -> Step
    requires { (16 * st.locals ≤ length locals.now) × (16 * st.frames ≤ length frames.now) × ((f : ℕ) → f < st.frames
        → number frames.now f 1 ≤ st.locals) }
    ensures { JudgedAll result diagnostics.old diagnostics.new locals.now frames.now st at }
{
    let first = first_in_frame(frames, st);
    let mut after = st;
    for left in (first..st.locals).rev() {
        after = judge(diagnostics, after, at, local_at(locals, LocalId(left)))?;
    }
    Ok(after)
}

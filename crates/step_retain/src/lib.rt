// What is retained of a spec's value: whether its local is the next to be kept, its analysis, its references.

#![tactic(auto)]

ghost use Rattle.std.specs.Prelude.{◌≡◌, ℕ, ◌*◌, ◌<◌, ◌≤◌, length};
ghost use Rattle.rules.specs.Scoping.{is_at};
ghost use Rattle.value_local.specs.Meaning.{binding_of};
ghost use Rattle.table_rows.specs.Entries.{number};
ghost use Rattle.step_retain.specs.Answers.{Keepable, IsKept, SetAnalysis, KeptReferences};

use refusal::Reason;
use state::{AnalysisStack, Limits, Step};
use step_locals::first_in_frame;
use table_locals::{local_at, put_local};
use value_local::{Binding, LocalId};

// Whether a local is that of the record at this place.
#[tactic(auto, unfolding(rules::specs::Scoping::is_at, value_local::specs::Meaning::binding_of))]
fn is_at(place: usize, stands_for: Binding) -> bool
    ensures { result ≡ is_at place (binding_of stands_for) }
{
    match stands_for {
        Binding::Record(at) => place == at as usize,
        Binding::External(_) => false,
    }
}

// Whether the next of the frame's locals to be kept is that of the record at this place.
#[tactic(auto, using(crate::proofs::Finding::none_left, crate::proofs::Finding::next_tells))]
pub fn is_kept(locals: &[u32], frames: &[u32], st: AnalysisStack, place: usize, next: u32) -> bool
    requires { (16 * st.locals ≤ length locals.now) × (16 * st.frames ≤ length frames.now) }
    ensures { IsKept result locals.now frames.now st place next }
{
    let first = first_in_frame(frames, st);
    if st.locals.saturating_sub(first) <= next {
        return false;
    }
    let l = local_at(locals, LocalId(first + next));
    is_at(place, l.stands_for)
}

// The local's analysis is that of the present value.
pub fn set_analysis(locals: &mut [u32], st: AnalysisStack, id: LocalId) -> AnalysisStack
    requires { (16 * st.locals ≤ length locals.old) × (id.0 < st.locals) }
    ensures { SetAnalysis result locals.old locals.new st id.0 }
{
    let l = local_at(locals, id);
    put_local(locals, id, l.with_analysis(st.taint));
    st
}

// The references that a kept spec has noted, where R allows.
#[tactic(auto, using(step_locals::proofs::Finding::first_within))]
pub fn keep_spec_references(
    locals: &mut [u32],
    references: &mut [u32],
    frames: &[u32],
    limits: Limits,
    st: AnalysisStack,
    place: usize,
    id: LocalId,
) -> Step
    requires { Keepable limits locals.old frames.now references.old st }
    ensures { KeptReferences result locals.old locals.new references.old references.new frames.now limits st place
        id.0 }
{
    let first = first_in_frame(frames, st);
    let n = st.locals - first;
    let kept = table_references::keep_references(
        locals,
        references,
        id,
        first as usize,
        n as usize,
        st.references as usize,
        limits.max_references as usize,
    );
    let Some(count) = kept else {
        return Err(Reason::ReferenceLimit.at(place));
    };
    Ok(AnalysisStack {
        references: count as u32,
        ..st
    })
}

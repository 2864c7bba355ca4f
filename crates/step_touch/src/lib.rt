// What a use of a local leaves in the table and in the present value, and whether a local could be defined further out.

#![tactic(auto)]

ghost use Rattle.std.specs.Prelude.{◌≡◌, ◌*◌, ◌<◌, ◌≤◌, length};
ghost use Rattle.rules.specs.Scoping.{could_be_hoisted};
ghost use Rattle.value_local.specs.Meaning.{local};
ghost use Rattle.value_depths.specs.Meaning.{result_of};
ghost use Rattle.step_touch.specs.Answers.{TouchedLocal, TouchedObject, tainted_by_local};

use state::AnalysisStack;
use table_locals::{local_at, put_use};
use value_depths::AnalysisResult;
use value_local::{LocalDefinition, LocalId};

// What the present value depends on once it uses a local.
fn taint_by_local(taint: AnalysisResult, l: LocalDefinition) -> AnalysisResult
    ensures { result_of result ≡ tainted_by_local (result_of taint) (local l) }
{
    let depends = taint.depend_on_local(l.defined_at_depth);
    if l.analyzed {
        let analysis = l.analysis;
        return depends.taint_by(analysis);
    }
    depends
}

// A use of a local.
pub fn touch_local(locals: &mut [u32], st: AnalysisStack, depth: u32, id: LocalId) -> AnalysisStack
    requires { (16 * st.locals ≤ length locals.old) × (id.0 < st.locals) }
    ensures { TouchedLocal result locals.old locals.new st depth id.0 }
{
    let l = local_at(locals, id);
    let used = l.use_at(depth);
    put_use(locals, id, used.note_reference());
    let before = st.taint;
    let taint = taint_by_local(before, l);
    AnalysisStack { taint, ..st }
}

// A use of an object's `this`.
pub fn touch_object(locals: &[u32], st: AnalysisStack, id: LocalId) -> AnalysisStack
    requires { (16 * st.locals ≤ length locals.now) × (id.0 < st.locals) }
    ensures { TouchedObject result locals.now st id.0 }
{
    let l = local_at(locals, id);
    let depth = l.defined_at_depth;
    let before = st.taint;
    let depends = before.depend_on_local(depth);
    let taint = depends.depend_on_object(depth);
    AnalysisStack { taint, ..st }
}

// Whether the local could be defined further out.
pub fn could_be_hoisted(l: LocalDefinition) -> bool
    ensures { result ≡ could_be_hoisted (local l) }
{
    let depth = l.defined_at_depth;
    if l.analysis.local_dependent_depth <= depth {
        return false;
    }
    if l.analysis.object_dependent_depth <= depth {
        return false;
    }
    0 < depth
}

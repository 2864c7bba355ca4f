// The record of an object, and that of a function, or of one which gives its argument.

#![tactic(auto)]

ghost use Rattle.std.specs.Prelude.{◌≡◌};
ghost use Rattle.rules.specs.Walk.{naming_span};
ghost use Rattle.state.specs.Seen.{span_of};
ghost use Rattle.state.specs.Walks.{naming_of};
ghost use Rattle.step_record.specs.Answers.{ObjectLeft, TakenBack, IdentityNamed, OtherNamed, FunctionNamed};

use state::{AnalysisStack, Naming, Step};
use step_write::{Code, Level, emit, report};

// What an object's record tells beside its marks, and what the object around it had met.
#[derive(Clone, Copy, Debug, PartialEq, Eq)]
pub struct ObjectEnd {
    pub outermost: bool,
    pub self_used: bool,
    pub super_used: bool,
    pub kept: u32,
    pub assertions: u32,
    pub values: u32,
    pub is_static: bool,
}

// A function's span, the output's length before it and before its body, how many parameters it keeps, and whether its first has a default.
#[derive(Clone, Copy, Debug, PartialEq, Eq)]
pub struct FunctionEnd {
    pub span: u32,
    pub start: usize,
    pub body_start: usize,
    pub kept: u32,
    pub defaults: bool,
}

// An object's record; the marks are again those of the object around it, but for `$`'s.
#[tactic(auto, using(crate::proofs::Recording::object_left), unfolding(state::specs::Seen::stack, law_runs::specs::Steps::object_record))]
pub fn leave_object(out: &mut [u8], st: AnalysisStack, at: usize, object: ObjectEnd) -> Step
    ensures { ObjectLeft result out.old out.new st at object.outermost object.self_used object.super_used object.kept
        object.assertions object.values object.is_static }
{
    let dollar = object.outermost & st.dollar_used;
    let this = (st.self_used | st.super_used) | dollar;
    let after = AnalysisStack {
        self_used: object.self_used,
        super_used: object.super_used,
        ..st
    };
    let numbers = [
        this as u32,
        dollar as u32,
        st.super_used as u32,
        object.kept,
        object.assertions,
        object.values,
        object.is_static as u32,
    ];
    emit(out, after, at, b"OB", &numbers)
}

// The span that warning 10 bears.
#[tactic(auto, unfolding(rules::specs::Walk::naming_span, state::specs::Walks::naming_of))]
fn naming_span(naming: Naming, span: u32) -> u32
    ensures { span_of result ≡ naming_span (naming_of naming) (span_of span) }
{
    match naming {
        Naming::Unnamed => span,
        Naming::AsBind(_, bind) => bind,
        Naming::AsMethod(_, head) | Naming::AsComputedMethod(head) => head,
    }
}

// The output ends at `start` again, if it has come so far.
#[tactic(auto, using(crate::proofs::Functions::not_so_far, crate::proofs::Functions::so_far))]
fn taken_back(st: AnalysisStack, start: usize) -> AnalysisStack
    ensures { TakenBack result st start }
{
    if st.out <= start {
        return st;
    }
    AnalysisStack { out: start, ..st }
}

// Warning 10, and the function's output becomes `IY`.
#[tactic(auto, using(crate::proofs::Functions::identity_named, crate::proofs::Functions::identity_refused, std::proofs::lemmas::Result::err_from_is_err_and,))]
fn name_identity(
    out: &mut [u8],
    diagnostics: &mut [u8],
    st: AnalysisStack,
    at: usize,
    span: u32,
    start: usize,
    naming: Naming,
) -> Step
    ensures { IdentityNamed result out.old out.new diagnostics.old diagnostics.new st at span start naming }
{
    let shown = naming_span(naming, span);
    let after = report(
        diagnostics,
        st,
        at,
        Level::Warning,
        Code::Identity as u32,
        0,
        shown,
    )?;
    emit(out, taken_back(after, start), at, b"IY", &[])
}

// The function's record, with its name if it has one.
#[tactic(auto, using(crate::proofs::Functions::other_named), unfolding(rules::specs::Walk::naming_numbers, state::specs::Walks::naming_of))]
fn name_other(out: &mut [u8], st: AnalysisStack, at: usize, kept: u32, naming: Naming) -> Step
    ensures { OtherNamed result out.old out.new st at kept naming }
{
    match naming {
        Naming::AsBind(name, _) | Naming::AsMethod(name, _) => {
            emit(out, st, at, b"FN", &[1, name, kept])
        }
        Naming::Unnamed | Naming::AsComputedMethod(_) => emit(out, st, at, b"FN", &[0, 0, kept]),
    }
}

// The function's record, or that of one which gives its argument.
#[tactic(auto, using(crate::proofs::Functions::by_identity, crate::proofs::Functions::by_other))]
pub fn name_function(
    out: &mut [u8],
    diagnostics: &mut [u8],
    st: AnalysisStack,
    at: usize,
    function: FunctionEnd,
    naming: Naming,
    gives: bool,
) -> Step
    ensures { FunctionNamed result out.old out.new diagnostics.old diagnostics.new st at function.span function.start
        function.kept naming gives }
{
    if gives {
        return name_identity(
            out,
            diagnostics,
            st,
            at,
            function.span,
            function.start,
            naming,
        );
    }
    name_other(out, st, at, function.kept, naming)
}

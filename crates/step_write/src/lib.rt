// The steps that write: output and diagnostics records after what was written.

#![tactic(auto)]

ghost use Rattle.std.specs.Prelude.{◌≡◌};
ghost use Rattle.rules.specs.Writing.{is_error, level_number};
ghost use Rattle.step_write.specs.Answers.{level_of, Emitted, Reported, BadPlace};

use bytes_write::put_record;
use refusal::Reason;
use state::{AnalysisStack, Step};

// How bad a diagnostic is, by document 01's numbers.
#[derive(Clone, Copy, Debug, PartialEq, Eq)]
pub enum Level {
    Error = 0,
    Warning = 1,
}

impl Level {
    #[tactic(auto, unfolding(rules::specs::Writing::level_number, crate::specs::Answers::level_of))]
    fn number(self) -> u32
        ensures { result ≡ level_number (level_of self) }
    {
        self as u32
    }

    #[tactic(auto, unfolding(rules::specs::Writing::is_error, crate::specs::Answers::level_of))]
    fn is_error(self) -> bool
        ensures { result ≡ is_error (level_of self) }
    {
        self == Level::Error
    }
}

// What a diagnostic is about, by document 01's numbers.
#[derive(Clone, Copy, Debug, PartialEq, Eq)]
pub enum Code {
    Undefined = 1,
    DefinedTwice = 2,
    SelfOutside = 3,
    SuperOutside = 4,
    DollarOutside = 5,
    ImportComputed = 6,
    Unused = 7,
    UsedByUnused = 8,
    CouldBeHoisted = 9,
    Identity = 10,
}

// What stands at a bad place, by document 01's numbers.
#[derive(Clone, Copy, Debug, PartialEq, Eq)]
pub enum BadKind {
    This = 0,
    Super = 1,
    Dollar = 2,
    Name = 3,
    Import = 4,
}

// An output record, or refusal 9.
#[tactic(auto, using(crate::proofs::Laws::emitted_to, crate::proofs::Laws::emitted_nothing, std::proofs::lemmas::Result::err_from_is_err_and))]
pub fn emit(out: &mut [u8], st: AnalysisStack, place: usize, mark: &[u8; 2], ns: &[u32]) -> Step
    ensures { Emitted result out.old out.new st place mark.now ns.now }
{
    let next = put_record(out, st.out, mark, ns).ok_or(Reason::OutputFull.at(place))?;
    Ok(AnalysisStack { out: next, ..st })
}

// A diagnostic, or refusal 10. Its code stays a number: docs/PROOFS.md names this function and `bad_place`, and `Code` would ask more of a caller.
#[tactic(auto, using(crate::proofs::Laws::reported_to, crate::proofs::Laws::reported_nothing, std::proofs::lemmas::Result::err_from_is_err_and))]
pub fn report(
    diagnostics: &mut [u8],
    st: AnalysisStack,
    place: usize,
    level: Level,
    code: u32,
    name: u32,
    span: u32,
) -> Step
    ensures { Reported result diagnostics.old diagnostics.new st place level code name span }
{
    let numbers = [level.number(), code, name, span];
    let written = put_record(diagnostics, st.diagnostics, b"DG", &numbers);
    let next = written.ok_or(Reason::DiagnosticsFull.at(place))?;
    Ok(AnalysisStack {
        diagnostics: next,
        errored: st.errored | level.is_error(),
        ..st
    })
}

// A diagnostic of an error, and the record of a bad place.
#[tactic(auto, using(crate::proofs::Laws::bad_written, crate::proofs::Laws::bad_refused, std::proofs::lemmas::Result::err_from_is_err_and))]
pub fn bad_place(
    out: &mut [u8],
    diagnostics: &mut [u8],
    st: AnalysisStack,
    place: usize,
    code: u32,
    name: u32,
    span: u32,
    bad: u32,
) -> Step
    ensures { BadPlace result out.old out.new diagnostics.old diagnostics.new st place code name span bad }
{
    let after = report(diagnostics, st, place, Level::Error, code, name, span)?;
    emit(out, after, place, b"BL", &[bad])
}

// Why a call is refused: document 01's numbered reasons, and the place in the tree.

#![tactic(auto)]

ghost use Rattle.std.specs.Prelude.{◌≡◌, IsTrue, true};
ghost use Rattle.rules.specs.Outcome.{is_refusal_number};
ghost use Rattle.refusal.specs.Meaning.{number_of};

use std::error::Error;
use std::fmt;

/// A reason under its number in document 01. The numbers 15 and 16 are not in use.
#[derive(Clone, Copy, Debug, PartialEq, Eq)]
pub enum Reason {
    CutShort = 1,
    WrongMark = 2,
    OutOfRange = 3,
    TooDeep = 4,
    BytesBehind = 5,
    LocalLimit = 6,
    FrameLimit = 7,
    CaptureLimit = 8,
    OutputFull = 9,
    DiagnosticsFull = 10,
    TooManyNames = 11,
    TooManyCaptures = 12,
    ShortTable = 13,
    LongTree = 14,
    ReferenceLimit = 17,
}

/// A reason, and the offset of the record that was being handled. The place is first: there an answer that is a place has its own.
#[derive(Clone, Copy, Debug, PartialEq, Eq)]
pub struct Refusal {
    pub place: usize,
    pub reason: Reason,
}

impl Reason {
    /// The reason's number in document 01.
    pub fn number(self) -> u32
        ensures number { result ≡ number_of self }
        ensures in_document { is_refusal_number result ≡ true }
    {
        self as u32
    }

    /// A refusal for this reason, at a place in the tree. Not inlined: refusals are rare, and callers store their answers in fewer parts.
    #[inline(never)]
    pub fn at(self, place: usize) -> Refusal
        ensures { result ≡ record { reason = self; place = place } }
    {
        Refusal {
            reason: self,
            place,
        }
    }
}

impl fmt::Display for Reason {
    fn fmt<W: fmt::Write>(&self, f: &mut fmt::Formatter<W>) -> fmt::Result {
        f.write_str(match self {
            Reason::CutShort => "a record's bytes run past the end",
            Reason::WrongMark => "a mark isn't allowed there",
            Reason::OutOfRange => "a flag, kind, set or visibility is out of range",
            Reason::TooDeep => "an expression is nested deeper than 200",
            Reason::BytesBehind => "bytes follow the expression",
            Reason::LocalLimit => "more live locals than the limit L",
            Reason::FrameLimit => "more open frames than the limit F",
            Reason::CaptureLimit => "more captures in open frames than the limit C",
            Reason::OutputFull => "a record doesn't fit the output",
            Reason::DiagnosticsFull => "a record doesn't fit the diagnostics",
            Reason::TooManyNames => "more than 65535 external names, or locals in one frame",
            Reason::TooManyCaptures => "more than 65536 captures in one frame",
            Reason::ShortTable => "a table is shorter than its limit asks",
            Reason::LongTree => "the tree is over 16777216 bytes",
            Reason::ReferenceLimit => "more references kept in open frames than the limit R",
        })
    }
}

impl fmt::Display for Refusal {
    fn fmt<W: fmt::Write>(&self, f: &mut fmt::Formatter<W>) -> fmt::Result {
        let number = self.reason.number();
        write!(
            f,
            "refused {}, {}, at offset {}",
            number, self.reason, self.place
        )
    }
}

impl Error for Refusal {}

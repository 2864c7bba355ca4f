// The refusals in words.
use crate::help::{DIAGNOSTICS, LIMIT, OUT};
use std::fmt;

// A refusal by its number, as the report has it, and its place in the tree.
#[derive(Clone, Copy)]
pub struct Refusal {
    pub number: u32,
    pub place: usize,
}

// What a refusal's number means, with the limit or the room that was met.
fn write_meaning<W: fmt::Write>(number: u32, f: &mut fmt::Formatter<W>) -> fmt::Result {
    match number {
        1 => write!(f, "a record's bytes run past the end"),
        2 => write!(f, "a mark isn't allowed there"),
        3 => write!(f, "a flag, kind, set or visibility is out of range"),
        4 => write!(f, "an expression is nested deeper than 200"),
        5 => write!(f, "bytes follow the expression"),
        6 => write!(f, "more live locals than the limit L, {LIMIT} here"),
        7 => write!(f, "more open frames than the limit F, {LIMIT} here"),
        8 => write!(
            f,
            "more captures in open frames than the limit C, {LIMIT} here"
        ),
        9 => write!(f, "a record doesn't fit the output, {OUT} bytes here"),
        10 => write!(
            f,
            "a record doesn't fit the diagnostics, {DIAGNOSTICS} bytes here"
        ),
        11 => write!(f, "more than 65535 external names, or locals in one frame"),
        12 => write!(f, "more than 65536 captures in one frame"),
        13 => write!(f, "a table is shorter than its limit asks"),
        14 => write!(f, "the tree is over 16777216 bytes"),
        17 => write!(
            f,
            "more references kept in open frames than the limit R, {LIMIT} here"
        ),
        _ => Ok(()),
    }
}

impl fmt::Display for Refusal {
    fn fmt<W: fmt::Write>(&self, f: &mut fmt::Formatter<W>) -> fmt::Result {
        let number = self.number;
        let place = self.place;
        write!(f, "refused {number}, ")?;
        write_meaning(number, f)?;
        write!(f, ": at offset {place} of the tree")
    }
}

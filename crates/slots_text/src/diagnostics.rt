// The diagnostics in words.
use bytes_read::number_at;
use std::{fmt, io};

// The bytes of a diagnostic.
const SIZE: usize = 18;

// How many errors and warnings there are.
#[derive(Clone, Copy, PartialEq, Eq, Debug, Default)]
pub struct Tally {
    pub errors: u64,
    pub warnings: u64,
}

// A diagnostic by its code, the name, if it is about one, and the span.
#[derive(Drop)]
struct Diagnostic {
    code: u32,
    name: u32,
    span: u32,
}

impl fmt::Display for Diagnostic {
    // The code stays a number, as the output's bytes have it; it tells the level too.
    fn fmt<W: fmt::Write>(&self, f: &mut fmt::Formatter<W>) -> fmt::Result {
        let name = self.name;
        let span = self.span;
        match self.code {
            1 => write!(f, "error 1, undefined: name {name}, span {span}"),
            2 => write!(f, "error 2, defined twice: name {name}, span {span}"),
            3 => write!(f, "error 3, self outside an object: span {span}"),
            4 => write!(f, "error 4, super outside an object: span {span}"),
            5 => write!(f, "error 5, $ outside an object: span {span}"),
            6 => write!(f, "error 6, import not literal: span {span}"),
            7 => write!(f, "warning 7, unused: name {name}, span {span}"),
            8 => write!(
                f,
                "warning 8, only used by unused siblings: name {name}, span {span}"
            ),
            9 => write!(f, "warning 9, could be hoisted: name {name}, span {span}"),
            10 => write!(f, "warning 10, identity function: span {span}"),
            _ => Ok(()),
        }
    }
}

// A line for each diagnostic, and how many there are of each level.
pub fn show_diagnostics(rt: &impl Print, bytes: &[u8]) -> io::Result<Tally> {
    let mut tally = Tally::default();
    for record in bytes.chunks_exact(SIZE) {
        let diagnostic = Diagnostic {
            code: number_at(record, 6),
            name: number_at(record, 10),
            span: number_at(record, 14),
        };
        println!(rt; "{diagnostic}")?;
        if number_at(record, 2) == 0 {
            tally.errors = tally.errors.wrapping_add(1);
        } else {
            tally.warnings = tally.warnings.wrapping_add(1);
        }
    }
    Ok(tally)
}

// The records of an output: what each is called, its numbers by name, and how many parts it owns.
ghost use Rattle.std.specs.Prelude.{◌<◌};

use crate::parts::behind;
use bytes_read::{mark_at, number_at};
use bytes_records::{
    AP, AR, AS, AT, BI, BV, ER, FH, FN, IF, IM, IX, LO, NA, OB, OX, PA, PT, SC, TV, UN,
};
use std::fmt;

// The marks that only an output has, as numbers: the first letter times 256, and the second.
const LS: u32 = 0x4c53;

const CS: u32 = 0x4353;

const BL: u32 = 0x424c;

const SU: u32 = 0x5355;

const AC: u32 = 0x4143;

const IY: u32 = 0x4959;

const FV: u32 = 0x4656;

const SH: u32 = 0x5348;

// How many numbers follow a mark, but for those that a constant array and a shape say.
fn fields(mark: u32) -> usize
    ensures { result < 8 }
{
    match mark {
        OX | SU | FV | IY => 0,
        SH => 2,
        IM | FN | PA => 3,
        AP | FH => 4,
        OB => 7,
        _ => 1,
    }
}

// What it was that leads nowhere, by a bad place's kind, which stays a number of the output.
fn bad_place(kind: u32) -> &'static str {
    match kind {
        0 => " (self)",
        1 => " (super)",
        2 => " ($)",
        3 => " (name)",
        4 => " (import)",
        _ => "",
    }
}

// What a capture is taken from, by its kind in the output.
fn source(kind: u32) -> &'static str {
    match kind {
        0 => "local",
        _ => "capture",
    }
}

// How many of start, end and step a set has.
fn members(set: u32) -> usize
    ensures { result < 33 }
{
    (set % 8).count_ones() as usize
}

// An object's assertions, and their shape where there are any.
fn assertions(n: u32) -> usize
    ensures { result < 4294967297 }
{
    if n == 0 { 0 } else { 1 + n as usize }
}

// The record that these bytes begin with.
#[derive(Clone, Copy)]
pub struct Record<'a>(&'a [u8]);

impl<'a> Record<'a> {
    pub fn at(out: &'a [u8], at: usize) -> Record<'a> {
        Record(behind(out, at))
    }

    fn mark(self) -> u32 {
        mark_at(self.0, 0)
    }

    // The first of its numbers is 0.
    fn number(self, i: u32) -> u32 {
        number_at(self.0, 2 + 4 * i as usize)
    }

    fn count(self, i: u32) -> usize
        ensures { result < 4294967296 }
    {
        self.number(i) as usize
    }

    // Its bytes.
    pub fn size(self) -> usize {
        let mark = self.mark();
        let fixed = 2 + 4 * fields(mark);
        match mark {
            AC => fixed + 4 * self.count(0),
            SH => fixed + 8 * self.count(1),
            _ => fixed,
        }
    }

    // How many parts stand directly before it and are its own; a frame's shape is one.
    pub fn owned(self) -> usize {
        match self.mark() {
            UN | ER | NA | PT => 1,
            OX | BI | FV | BV => 2,
            AR | IX | AT => 1 + self.count(0),
            AS | IF | LO => 2 + self.count(0),
            AP => 1 + self.count(0) + self.count(1),
            FN => 2 + self.count(2),
            SC => 1 + members(self.number(0)),
            OB => 1 + self.count(3) + assertions(self.number(4)) + 2 * self.count(5),
            FH => self.count(0),
            PA => 2 * self.count(2),
            _ => 0,
        }
    }

    // Its first seven numbers, of which none has more but those that a constant array and a shape say.
    fn numbers(self) -> [u32; 7] {
        [0, 1, 2, 3, 4, 5, 6].map(|i| self.number(i))
    }

    fn write_constants<W: fmt::Write>(self, f: &mut fmt::Formatter<W>) -> fmt::Result {
        let items = self.number(0);
        write!(f, "AC  constant array: items {items}:")?;
        for i in 0..items {
            let constant = number_at(self.0, 6 + 4 * i as usize);
            write!(f, " {constant}")?;
        }
        Ok(())
    }

    // For each of a closure's captures, where it is taken from in the closure around it.
    fn write_captures<W: fmt::Write>(self, f: &mut fmt::Formatter<W>) -> fmt::Result {
        let captures = self.number(1);
        if captures == 0 {
            return write!(f, " none");
        }
        for i in 0..captures {
            if i != 0 {
                write!(f, ",")?;
            }
            let at = 10 + 8 * i as usize;
            let source = source(number_at(self.0, at));
            let number = number_at(self.0, at + 4);
            write!(f, " {source} {number}")?;
        }
        Ok(())
    }

    // A record that is no expression by itself, but a part of one.
    fn write_part<W: fmt::Write>(self, f: &mut fmt::Formatter<W>) -> fmt::Result {
        let [a, b, c, d, _, _, _] = self.numbers();
        match self.mark() {
            NA => write!(f, "NA  named argument: name {a}"),
            PT => write!(f, "PT  part: span {a}"),
            FH => write!(
                f,
                "FH  field head: kind {a}, name {b}, plus {c}, visibility {d}"
            ),
            FV => write!(f, "FV  field value"),
            BV => write!(f, "BV  bind: slot {a}"),
            PA => write!(f, "PA  parameter: name {a}, slot {b}, default {c}"),
            AT => write!(f, "AT  assertion: message {a}"),
            SH => {
                write!(f, "SH  shape: {a} locals; captures:")?;
                self.write_captures(f)
            }
            _ => Ok(()),
        }
    }
}

// The mark, what the record is, and its numbers by name.
impl fmt::Display for Record<'_> {
    fn fmt<W: fmt::Write>(&self, f: &mut fmt::Formatter<W>) -> fmt::Result {
        let [a, b, c, d, e, g, h] = self.numbers();
        match self.mark() {
            LS => write!(f, "LS  local slot {a}"),
            CS => write!(f, "CS  capture {a}"),
            SU => write!(f, "SU  super"),
            BL => write!(f, "BL  bad place: kind {a}{}", bad_place(a)),
            TV => write!(f, "TV  constant {a}"),
            AC => self.write_constants(f),
            AR => write!(f, "AR  array: items {a}"),
            OX => write!(f, "OX  object extended"),
            UN => write!(f, "UN  unary: operator {a}"),
            BI => write!(f, "BI  binary: operator {a}"),
            AS => write!(f, "AS  assert: message {a}"),
            LO => write!(f, "LO  local: binds {a}"),
            ER => write!(f, "ER  error: span {a}"),
            IM => write!(f, "IM  import: kind {a}, span {b}, path {c}"),
            AP => write!(
                f,
                "AP  call: positional {a}, named {b}, tailstrict {c}, span {d}"
            ),
            IX => write!(f, "IX  index: parts {a}"),
            FN => write!(f, "FN  function: named {a}, name {b}, parameters {c}"),
            IY => write!(f, "IY  identity function"),
            IF => write!(f, "IF  if: else {a}"),
            SC => write!(f, "SC  slice: set {a}"),
            OB => write!(
                f,
                "OB  object: this {a}, dollar {b}, super {c}, locals {d}, assertions {e}, fields {g}, static {h}"
            ),
            _ => self.write_part(f),
        }
    }
}

// An output as a tree: a record stands after all that it owns, and is shown before it.
ghost use Rattle.std.specs.Prelude.{◌≤◌, length};

use crate::records::Record;
use std::{fmt, io};

// The most records that the longest output of `slots` can have: each has two bytes at least.
const MOST: usize = 65536;

// Where a record stands, the first record of the part that ends with it, and how deep it stands; and which record the line of
// this row shows. Of 32 bits each: all rows lie on the stack.
#[derive(Clone, Copy, Default)]
struct Row {
    start: u32,
    first: u32,
    depth: u32,
    shown: u32,
}

fn narrow(n: usize) -> u32 {
    (n % 4294967296) as u32
}

// A record's row; after the end there are zeros.
fn row_of(rows: &[Row], i: usize) -> Row {
    rows.get(i).copied().unwrap_or_default()
}

// The first record of the part that ends with a record and has so many parts directly below that.
fn first_of(rows: &[Row], last: usize, parts: usize) -> usize {
    let mut first = last;
    for _part in 0..parts {
        if first == 0 {
            return 0;
        }
        first = row_of(rows, first - 1).first as usize;
    }
    first
}

// Enters where each record stands and the first record of its part; answers how many records there are.
fn index(out: &[u8], rows: &mut [Row]) -> usize
    ensures { result ≤ length rows.new }
{
    let most = rows.len();
    let mut at = 0;
    for i in 0..most {
        if out.len() <= at {
            return i;
        }
        let record = Record::at(out, at);
        let first = first_of(rows, i, record.owned());
        rows[i].start = narrow(at);
        rows[i].first = narrow(first);
        at = at.wrapping_add(record.size());
    }
    most
}

// Enters how deep the parts directly below a record stand, the last first.
fn deepen(rows: &mut [Row], last: usize, parts: usize) {
    let depth = row_of(rows, last).depth.wrapping_add(1);
    let mut first = last;
    for _part in 0..parts {
        if first == 0 {
            return;
        }
        let Some(part) = rows.get_mut(first - 1) else {
            return;
        };
        part.depth = depth;
        first = part.first as usize;
    }
}

// Enters how deep each record stands and, for each line, which record it shows: as many lines are above a record as there are
// records before its part and records around it.
fn arrange(out: &[u8], rows: &mut [Row]) {
    for i in (0..rows.len()).rev() {
        let row = row_of(rows, i);
        deepen(rows, i, Record::at(out, row.start as usize).owned());
        if let Some(line) = rows.get_mut(row.first.wrapping_add(row.depth) as usize) {
            line.shown = narrow(i);
        }
    }
}

// A record's line: its offset, and its words below those of its owner.
#[derive(Drop)]
struct Line<'a> {
    start: u32,
    depth: u32,
    record: Record<'a>,
}

impl fmt::Display for Line<'_> {
    fn fmt<W: fmt::Write>(&self, f: &mut fmt::Formatter<W>) -> fmt::Result {
        let start = self.start;
        write!(f, "{start:>6}  ")?;
        for _level in 0..self.depth {
            write!(f, "  ")?;
        }
        let record = self.record;
        write!(f, "{record}")
    }
}

// A line for each record.
fn show_lines(rt: &impl Print, out: &[u8], rows: &[Row]) -> io::Result<()> {
    for line in rows {
        let Row { start, depth, .. } = row_of(rows, line.shown as usize);
        let record = Record::at(out, start as usize);
        rt.println(Line {
            start,
            depth,
            record,
        })?;
    }
    Ok(())
}

// All records of an output, if they are asked for; answers how many there are. Not inlined: its rows need not lie on the
// stack while its caller analyses.
#[inline(never)]
pub fn show_records(rt: &impl Print, out: &[u8], asked: bool) -> io::Result<usize> {
    let mut rows = [Row::default(); MOST];
    let records = index(out, &mut rows);
    if asked {
        let rows = &mut rows[..records];
        arrange(out, rows);
        show_lines(rt, out, rows)?;
    }
    Ok(records)
}

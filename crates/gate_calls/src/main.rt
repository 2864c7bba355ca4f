// Replays stored calls on the analyser, and prints each whose answer or buffers differ from the stored ones, with what differs.

#![tactic(auto)]

mod comparison;
mod stored;

use bytes_read::number_at;
use comparison::Comparison;
use gate_input::{read_full, read_part};
use state::Lent;
use std::io::{self, Read};
use stored::{Stored, analyzed};

// The longest part of a stored call, and the most numbers of a table that is lent to one.
const BYTES: usize = 8192;

const NUMBERS: usize = 4096;

// What stands in all that is lent, before a call.
const RUBBISH: u8 = 0xa5;

const RUBBISH_NUMBER: u32 = 0xa5a5a5a5;

// Whether one call, with just what is lent to it, leaves what is stored and zeros behind that.
fn replay_lent(
    rt: &impl Print,
    call: u32,
    stored: &Stored<'_>,
    mut lent: Lent<'_>,
) -> io::Result<bool> {
    let report = analyzed(stored.tree, &mut lent, stored.limits());
    let mut comparison = Comparison::new(rt, call);
    comparison.hold_report(stored, &report)?;
    comparison.hold_bytes(" output bytes", lent.out, stored.out)?;
    comparison.hold_bytes(" diagnostics bytes", lent.diagnostics, stored.diagnostics)?;
    comparison.hold_zero(" locals not zero", lent.locals)?;
    comparison.hold_zero(" frames not zero", lent.frames)?;
    comparison.hold_zero(" captures not zero", lent.captures)?;
    comparison.hold_zero(" references not zero", lent.references)?;
    comparison.end()
}

// The same for one call that was read; nothing where it is lent more than there is room for.
fn replay_read(rt: &impl Print, call: u32, stored: &Stored<'_>) -> io::Result<Option<bool>> {
    let [l, f, c, r, o, d] = stored.sizes();
    if NUMBERS < l || NUMBERS < f || NUMBERS < c || NUMBERS < r || BYTES < o || BYTES < d {
        return Ok(None);
    }
    let lent = Lent {
        out: &mut [RUBBISH; BYTES][..o],
        diagnostics: &mut [RUBBISH; BYTES][..d],
        locals: &mut [RUBBISH_NUMBER; NUMBERS][..l],
        frames: &mut [RUBBISH_NUMBER; NUMBERS][..f],
        captures: &mut [RUBBISH_NUMBER; NUMBERS][..c],
        references: &mut [RUBBISH_NUMBER; NUMBERS][..r],
    };
    Ok(Some(replay_lent(rt, call, stored, lent)?))
}

// The same for the next stored call, or nothing where it is missing: its head, then the tree, the output and the diagnostics.
fn replay_one(rt: &impl Print, input: &mut impl Read, call: u32) -> io::Result<Option<bool>> {
    let mut head = [0u8; 84];
    let mut tree = [0u8; BYTES];
    let mut out = [0u8; BYTES];
    let mut diagnostics = [0u8; BYTES];
    let Some(head) = read_part(input, &mut head, 84)? else {
        return Ok(None);
    };
    let Some(tree) = read_part(input, &mut tree, number_at(head, 44) as usize)? else {
        return Ok(None);
    };
    let Some(out) = read_part(input, &mut out, number_at(head, 56) as usize)? else {
        return Ok(None);
    };
    let Some(diagnostics) = read_part(input, &mut diagnostics, number_at(head, 60) as usize)? else {
        return Ok(None);
    };
    replay_read(
        rt,
        call,
        &Stored {
            head,
            tree,
            out,
            diagnostics,
        },
    )
}

// How many of the next calls are answered as stored; the others are printed. After a missing one nothing can be read.
fn replay_all(rt: &impl Print, input: &mut impl Read, count: u32) -> io::Result<u32> {
    let mut same: u32 = 0;
    for i in 0..count {
        match replay_one(rt, input, i)? {
            Some(true) => same = same.wrapping_add(1),
            Some(false) => {}
            None => {
                println!(rt; "missing or too long: {i}")?;
                return Ok(same);
            }
        }
    }
    Ok(same)
}

// Whether the file has nothing more.
fn at_end(input: &mut impl Read) -> io::Result<bool> {
    Ok(read_full(input, &mut [0u8; 1])? == 0)
}

fn main(rt: HostRuntime) -> io::Result<()> {
    let mut input = rt.reader();
    let mut head = [0u8; 8];
    read_full(&mut input, &mut head)?;
    if !head.starts_with(b"TSLV") {
        println!(rt; "not a file of stored calls")?;
    }
    let count = number_at(&head, 4);
    println!(rt; "calls: {count}")?;
    let same = replay_all(&rt, &mut input, count)?;
    if !at_end(&mut input)? {
        println!(rt; "more behind the last call")?;
    }
    println!(rt; "answered as stored: {same}")
}

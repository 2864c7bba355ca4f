// Replays stored byte strings on the first walk, and prints each whose refusal or place differs from the stored one.

#![tactic(auto)]

use bytes_read::number_at;
use gate_input::{read_full, read_part};
use std::io::{self, Read};

// Whether the walk over the bytes ends with this refusal, 0 for none, at this place.
fn ends_with(bytes: &[u8], number: u32, place: u32) -> bool {
    match tree::first_walk(bytes) {
        Ok(_) => number == 0,
        Err(why) => why.reason.number() == number && why.place == place as usize,
    }
}

// Whether the next stored byte string, if it is there, is answered as stored: its length, number and place stand at fixed
// offsets of its head.
fn replay_one(input: &mut impl Read) -> io::Result<Option<bool>> {
    let mut room = [0u8; 84];
    let Some(head) = read_part(input, &mut room, 84)? else {
        return Ok(None);
    };
    let mut room = [0u8; 4096];
    let Some(bytes) = read_part(input, &mut room, number_at(head, 44) as usize)? else {
        return Ok(None);
    };
    Ok(Some(ends_with(bytes, number_at(head, 48), number_at(head, 52))))
}

// How many of the next strings are answered as stored; the others are printed.
fn replay_all(rt: &impl Print, input: &mut impl Read, count: u32) -> io::Result<u32> {
    let mut same: u32 = 0;
    for i in 0..count {
        match replay_one(input)? {
            Some(true) => same = same.wrapping_add(1),
            Some(false) => println!(rt; "differs: {i}")?,
            None => println!(rt; "missing: {i}")?,
        }
    }
    Ok(same)
}

fn main(rt: HostRuntime) -> io::Result<()> {
    let mut input = rt.reader();
    let mut head = [0u8; 8];
    read_full(&mut input, &mut head)?;
    let count = number_at(&head, 4);
    println!(rt; "byte strings: {count}")?;
    let same = replay_all(&rt, &mut input, count)?;
    println!(rt; "answered as stored: {same}")
}

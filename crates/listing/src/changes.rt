// What differs between two messages: as pairs of places, and in words.
use crate::tree::say_bad;
use say::Why;
use std::io;
use wire::{Refusal, RefusedAt};

// Why a comparison is refused: the table isn't good, or else the message of that name isn't.
pub fn say_refused(rt: &impl Print, name: &str, refused: RefusedAt) -> io::Result<()> {
    let RefusedAt { why, place } = refused;
    match why {
        Refusal::Trailer | Refusal::Record => say_bad(rt, refused),
        _ => println!(rt; "{name}: refused: {}, at byte {place}", Why(why)),
    }
}

// So many pairs of places, each on a line.
pub fn say_pairs(rt: &impl Print, list: &[u64], count: usize) -> io::Result<()> {
    for pair in list.chunks_exact(2).take(count) {
        if let [one, other] = pair {
            println!(rt; "{one} {other}")?;
        }
    }
    Ok(())
}

// The last of the made entries, from one on, whose place isn't behind the given one. An item that differs has bytes, so what
// shares its place stands before it.
#[tactic(auto, unfolding(wire::specs::Answers::room_of))]
fn last_at(made: &[u64], from: usize, place: u64) -> usize {
    let mut at = from;
    for next in from.saturating_add(1)..entry::room(made.len()) {
        if place < entry::place(made, next) {
            return at;
        }
        at = next;
    }
    at
}

// Puts the other message's entry `there` at `at`. Its place is counted from 1 then: 0 says that nothing differs.
#[tactic(auto, unfolding(wire::specs::Answers::room_of))]
fn line_up_one(others: &[u64], there: usize, other: &[u8], lined: &mut [u64], at: usize) {
    if there < entry::room(others.len()) {
        let place = entry::place(others, there) as usize;
        if place < other.len() {
            let first = entry::first(others, there);
            let second = entry::second(others, there);
            entry::put(lined, at, first, second, place + 1);
        }
    }
}

// Lines up the other message's entries with those made of the first, where they differ: at so many pairs of places.
pub fn line_up(
    list: &[u64],
    count: usize,
    made: &[u64],
    others: &[u64],
    other: &[u8],
    lined: &mut [u64],
) {
    let mut at = 0;
    let mut there = 0;
    for pair in list.chunks_exact(2).take(count) {
        if let [here, beside] = pair {
            at = last_at(made, at, *here);
            there = last_at(others, there, *beside);
            line_up_one(others, there, other, lined, at);
        }
    }
}

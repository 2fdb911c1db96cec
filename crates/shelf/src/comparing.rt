// Two messages side by side: where they differ.
use crate::files::{large_room, with, words_room};
use desk::NotCompared;
use listing::changes;
use listing::entries::show_changes;
use listing::line::Beside;
use std::io;
use std::rt::Runtime;
use wire::{Reached, RefusedAt, Stopped};

// The list has room for 16,384 pairs: no two messages of so many entries have more.
const PAIRS: usize = 2 * 16384;

fn pairs_room() -> [u64; PAIRS] {
    [0; PAIRS]
}

// How many entries a reading made.
fn made_by(answer: Result<Reached, Stopped>) -> usize {
    match answer {
        Ok(reached) => reached.count,
        Err(stopped) => stopped.count,
    }
}

// The items at so many pairs of places, in words.
fn say_items(
    rt: &impl Print,
    table: &[u8],
    one: &[u8],
    other: &[u8],
    list: &[u64],
    count: usize,
) -> io::Result<()> {
    if count == 0 {
        return println!(rt; "no item differs");
    }
    let mut store = words_room();
    let mut others = words_room();
    let mut lined = words_room();
    let ones = made_by(reader::read(table, one, &mut store));
    let theirs = made_by(reader::read(table, other, &mut others));
    let made = entry::front(&store, ones);
    let made_there = entry::front(&others, theirs);
    changes::line_up(list, count, made, made_there, other, &mut lined);
    let beside = Beside {
        lined: &lined,
        message: other,
    };
    show_changes(rt, table, one, made, beside)
}

fn compare(rt: &impl Print, table: &[u8], one: &[u8], other: &[u8], aloud: bool) -> io::Result<()> {
    let mut list = pairs_room();
    match compare::compare(table, one, other, &mut list) {
        Ok(count) if aloud => say_items(rt, table, one, other, &list, count),
        Ok(count) => changes::say_pairs(rt, &list, count),
        Err(NotCompared::Short) => println!(rt; "refused: 15, the list is too short for the pairs"),
        Err(NotCompared::Refused { why, place }) => {
            changes::say_refused(rt, "the first message", RefusedAt { why, place })
        }
        Err(NotCompared::OtherRefused { why, place }) => {
            changes::say_refused(rt, "the second message", RefusedAt { why, place })
        }
    }
}

// Compares a message with the one that the command's word 4 names: the pairs of places, or, aloud, the items in words.
pub fn compare_with(rt: &impl Runtime, table: &[u8], one: &[u8], aloud: bool) -> io::Result<()> {
    with(rt, 4, &mut large_room(), |other| {
        compare(rt, table, one, other, aloud)
    })
}

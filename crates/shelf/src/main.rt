// What a planner runs: shelf table, read, bytes, read-strict, find, compare, changes, append, frames, frame, export, import, write and batch, each over files. Without such words it says how to use it.
#![tactic(auto)]

mod batching;
mod comparing;
mod decimal;
mod files;
mod finding;
mod frames;
mod rows;
mod shown;
mod usage;
mod writing;

use files::{large_room, largest_room, with, with_two};
use std::io;
use std::rt::Runtime;

// Runs a command of n words.
fn run(rt: &impl Runtime, verb: &[u8], n: usize) -> io::Result<()> {
    match verb {
        b"table" if n == 3 => with(rt, 2, &mut large_room(), |table| {
            listing::tree::show(rt, table)
        }),
        b"read" if n == 4 => with_two(rt, |table, message| shown::read(rt, table, message, false)),
        b"bytes" if n == 4 => with_two(rt, |table, message| shown::read(rt, table, message, true)),
        b"read-strict" if n == 4 => with_two(rt, |table, message| {
            shown::read_strictly(rt, table, message)
        }),
        b"find" if 4 <= n => with_two(rt, |table, message| finding::find(rt, table, message, n)),
        b"compare" if n == 5 => with_two(rt, |table, one| {
            comparing::compare_with(rt, table, one, false)
        }),
        b"changes" if n == 5 => with_two(rt, |table, one| {
            comparing::compare_with(rt, table, one, true)
        }),
        b"append" if n == 4 => with_two(rt, |old, new| shown::ask(rt, old, new)),
        b"frames" if n == 2 || n == 3 => frames::run(rt, n),
        b"frame" if n == 4 => with(rt, 2, &mut large_room(), |message| {
            frames::save(rt, message)
        }),
        b"export" if n == 4 => with_two(rt, |table, message| rows::export(rt, table, message)),
        b"import" if n == 5 => with(rt, 2, &mut large_room(), |table| {
            with(rt, 3, &mut largest_room(), |row| rows::save(rt, table, row))
        }),
        b"write" if n == 6 => with_two(rt, |table, values| {
            writing::write_values(rt, table, values)
        }),
        b"batch" => batching::run(rt, n),
        _ => usage::say(rt),
    }
}

fn main(rt: HostRuntime) -> io::Result<()> {
    let mut room = host::buffer();
    let verb = host::word(&rt, 1, &mut room);
    run(&rt, verb, host::word_count(&rt))
}

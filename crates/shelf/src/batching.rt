// Night batches: written from messages that stand end to end, checked whole, asked for the last message of a store and product,
// and compacted.
use crate::files::{large_room, largest_room, with};
use crate::{decimal, files, shown, usage};
use decimal::NoNumber;
use desk::{Fault, Key};
use say::{Count, Hex, front};
use std::io;
use std::rt::{Env, Runtime};
use wire::RefusedAt;

fn say_fault(rt: &impl Print, fault: Fault) -> io::Result<()> {
    match fault {
        Fault::Wire { why, place } => {
            shown::say_refusal(rt, RefusedAt { why, place }, "batch", files::LARGEST)
        }
        Fault::Fields => println!(rt;
            "refused: 17, the store and product fields don't fit the table"
        ),
        Fault::Batch => println!(rt; "refused: 18, the batch is bad"),
        Fault::Missing => println!(rt; "refused: 19, the batch has no such store and product"),
    }
}

fn write(
    rt: &impl Runtime,
    table: &[u8],
    messages: &[u8],
    store: u64,
    product: u64,
) -> io::Result<()> {
    let mut out = largest_room();
    match batch::write(table, messages, store as usize, product as usize, &mut out) {
        Ok(place) => files::save(rt, 7, front(&out, place)),
        Err(fault) => say_fault(rt, fault),
    }
}

// Writes a batch of the messages that the command's word 4 names, with the fields of words 5 and 6. No root has a field at a
// place that doesn't fit 64 bits.
fn write_messages(rt: &impl Runtime, table: &[u8]) -> io::Result<()> {
    let (Some(store), Some(product)) = (decimal::at_most(rt, 5), decimal::at_most(rt, 6)) else {
        return println!(rt; "a field is a number in decimal");
    };
    with(rt, 4, &mut large_room(), |messages| {
        write(rt, table, messages, store, product)
    })
}

fn check(rt: &impl Print, table: &[u8], batch: &[u8]) -> io::Result<()> {
    match batch::check(table, batch) {
        Ok(()) => println!(rt; "good batch: messages end to end, and a row for each, in order"),
        Err(fault) => say_fault(rt, fault),
    }
}

fn show_last(rt: &impl Print, table: &[u8], batch: &[u8], key: Key) -> io::Result<()> {
    let found = batch::last(table, batch, key);
    match found {
        Ok(part) => {
            let message = batch::part(batch, found);
            let count = Count(part.len as u64, "byte");
            println!(rt; "at byte {}, {count}:{}", part.from, Hex(message))?;
            shown::read(rt, table, message, false)
        }
        Err(fault) => say_fault(rt, fault),
    }
}

// Shows the last message of the store and product in the command's words 5 and 6. A store has 32 bits.
fn last(rt: &(impl Env + Print), table: &[u8], batch: &[u8]) -> io::Result<()> {
    match (decimal::at_most(rt, 5), decimal::word(rt, 6)) {
        (Some(store), Ok(product)) => show_last(rt, table, batch, Key { store, product }),
        (Some(_), Err(NoNumber::TooLarge)) => {
            println!(rt; "a product number is at most 18446744073709551615")
        }
        _ => println!(rt; "a store and a product are numbers in decimal"),
    }
}

fn compact(rt: &impl Runtime, table: &[u8], batch: &[u8]) -> io::Result<()> {
    let mut out = largest_room();
    match batch::compact(table, batch, &mut out) {
        Ok(place) => files::save(rt, 5, front(&out, place)),
        Err(fault) => say_fault(rt, fault),
    }
}

// Runs on the table and the batch that the command's words 3 and 4 name.
fn with_batch<R: Runtime, F: FnOnce(&[u8], &[u8]) -> io::Result<()>>(
    rt: &R,
    run: F,
) -> io::Result<()>
    requires { F.IsAlwaysCallable run }
{
    with(rt, 3, &mut large_room(), |table| {
        with(rt, 4, &mut largest_room(), |batch| run(table, batch))
    })
}

// shelf batch VERB .., of n words.
pub fn run(rt: &impl Runtime, n: usize) -> io::Result<()> {
    let mut room = host::buffer();
    match host::word(rt, 2, &mut room) {
        b"write" if n == 8 => with(rt, 3, &mut large_room(), |table| {
            write_messages(rt, table)
        }),
        b"check" if n == 5 => with_batch(rt, |table, batch| check(rt, table, batch)),
        b"last" if n == 7 => with_batch(rt, |table, batch| last(rt, table, batch)),
        b"compact" if n == 6 => with_batch(rt, |table, batch| compact(rt, table, batch)),
        _ => usage::say(rt),
    }
}

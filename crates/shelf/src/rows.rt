// A message as a row of CSV on standard output, and a row as a message in a file.
use crate::files::{LARGE, LARGEST, large_room, largest_room};
use crate::{files, shown};
use desk::NotRows;
use say::front;
use std::io;
use std::rt::Runtime;
use wire::RefusedAt;

// Why there is no row, or no message of one, in so large a room.
fn say_refused(rt: &impl Print, none: NotRows, what: &str, room: usize) -> io::Result<()> {
    match none {
        NotRows::Refused { why, place } => {
            shown::say_refusal(rt, RefusedAt { why, place }, what, room)
        }
        NotRows::Unfit => println!(rt;
            "refused: 20, the table has no rows: its root is no struct of at most 1024 numbers, chars, texts and bytes"
        ),
        NotRows::NoRow { place } => {
            println!(rt; "refused: 21, no row of this table goes on so, at byte {place}")
        }
    }
}

// The row of a message. No row begins as the words of a refusal do.
pub fn export(rt: &impl Print, table: &[u8], message: &[u8]) -> io::Result<()> {
    let mut out = largest_room();
    match csv_rows::export(table, message, &mut out) {
        Ok(place) => rt.write_all(front(&out, place)),
        Err(none) => say_refused(rt, none, "row", LARGEST),
    }
}

// Puts a row's message into a room of its own, and that into the file of the command's word 4 only if all is well.
pub fn save(rt: &impl Runtime, table: &[u8], row: &[u8]) -> io::Result<()> {
    let mut out = large_room();
    match csv_rows::import(table, row, &mut out) {
        Ok(place) => files::save(rt, 4, front(&out, place)),
        Err(none) => say_refused(rt, none, "message", LARGE),
    }
}

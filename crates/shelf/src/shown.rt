// What is shown of a message, of two tables side by side, and of a refusal.
use crate::files::words_room;
use listing::{apart, entries, tree};
use parting::Parting;
use say::Why;
use std::io;
use wire::{NotAsked, Refusal, RefusedAt};

// A refusal of the table, of a message or of the room of so many bytes for what is written, with its place.
pub fn say_refusal(rt: &impl Print, refused: RefusedAt, what: &str, room: usize) -> io::Result<()> {
    let RefusedAt { why, place } = refused;
    match why {
        Refusal::Trailer | Refusal::Record => tree::say_bad(rt, refused),
        Refusal::Full => {
            println!(rt; "refused: 12, the {what} is larger than the room of {room} bytes")
        }
        _ => println!(rt; "refused: {}, at byte {place}", Why(why)),
    }
}

// Reads a message by a table, and shows its items' bytes where they are asked for. There is room for 16,384 entries.
pub fn read(rt: &impl Print, table: &[u8], message: &[u8], bytes: bool) -> io::Result<()> {
    let mut store = words_room();
    let answer = reader::read(table, message, &mut store);
    let rest = reader::rest(message, answer);
    entries::show(rt, table, message, &store, answer, rest, bytes)
}

// Reads a message strictly. The plain reading behind it has the same entries, and that of the item which isn't in its shortest form.
pub fn read_strictly(rt: &impl Print, table: &[u8], message: &[u8]) -> io::Result<()> {
    let mut store = words_room();
    let strict = reader::read_strict(table, message, &mut store);
    let plain = reader::read(table, message, &mut store);
    let rest = reader::rest(message, strict);
    entries::show_strictly(rt, table, message, &store, strict, plain, rest)
}

// The append question's work area.
fn work_area() -> [u8; append::AREA] {
    [0; append::AREA]
}

// Asks whether a new table only appends to an old one.
pub fn ask(rt: &impl Print, old: &[u8], new: &[u8]) -> io::Result<()> {
    let mut area = work_area();
    let mut path = [0u64; 256];
    match parting::find(old, new, &mut area, &mut path) {
        Ok(Parting::Appends) => println!(rt; "yes: the new table only appends to the old one."),
        Ok(Parting::Apart { depth }) => {
            apart::show(rt, old, new, path.get(..depth).unwrap_or(&path))
        }
        Err(NotAsked::Table { side, why, place }) => {
            apart::show_bad(rt, side, RefusedAt { why, place })
        }
        Err(NotAsked::ShortArea) => println!(rt; "the work area is too short."),
    }
}

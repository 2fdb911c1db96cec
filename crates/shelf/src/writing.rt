// A value list, written as a message.
use crate::files;
use crate::files::{large_room, with, words_room};
use say::{Count, Why, front};
use std::io;
use std::rt::Runtime;

// Writes the values into a room of its own, and that into the file of the command's word 5 only if all is well.
fn write(rt: &impl Runtime, table: &[u8], words: &[u64], pool: &[u8]) -> io::Result<()> {
    let mut out = large_room();
    match writer::write(table, words, pool, &mut out) {
        Ok(place) => files::save(rt, 5, front(&out, place)),
        Err(refused) => {
            println!(rt;
                "refused: {}, at place {}; nothing is written",
                Why(refused.why),
                refused.place
            )
        }
    }
}

// Puts the whole words of a file, with the low byte first, in front of the room.
fn words_of<'a>(bytes: &[u8], room: &'a mut [u64]) -> &'a [u64] {
    let (words, _) = bytes.as_chunks::<8>();
    for (word, bytes) in room.iter_mut().zip(words) {
        *word = u64::from_le_bytes(*bytes);
    }
    let count = words.len().min(room.len());
    &room[..count]
}

// Writes the values of a file, with the pool that the command's word 4 names.
pub fn write_values(rt: &impl Runtime, table: &[u8], values: &[u8]) -> io::Result<()> {
    with(rt, 4, &mut large_room(), |pool| {
        if values.len() % 8 != 0 {
            let bytes = Count(values.len() as u64, "byte");
            return println!(rt; "the values are no whole words of eight bytes: {bytes}");
        }
        write(rt, table, words_of(values, &mut words_room()), pool)
    })
}

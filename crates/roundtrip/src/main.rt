// Writes a value of every kind, reads it back with bytes behind it, and writes what was read again; and writes lists that
// are refused. crates/recorded/make has them.
#![tactic(auto)]

use recorded::field::part;
use recorded::memory::put_words;
use say::{Entries, Hex, Why};
use std::io;

// So many value lists are to be written, of which the longest has so many words; a store has room for some more.
const LISTS: usize = 15;

const LONGEST: usize = 43 * entry::WORDS;

const STORE: usize = 45 * entry::WORDS;

// The room for a message of every kind, with four bytes behind it.
const ROOM: usize = 135;

// ---- there and back

// Writes what was read, of which the message is the pool: the same bytes come out.
fn write_again(rt: &impl Print, table: &[u8], words: &[u64], message: &[u8]) -> io::Result<()> {
    let mut out = [0xeeu8; ROOM];
    let Ok(place) = writer::write(table, words, message, &mut out) else {
        return println!(rt; "not written again");
    };
    let same = out.as_slice() == message;
    println!(rt;
        "written again, {place} bytes: {}",
        if same { "the same" } else { "others" }
    )
}

fn read_back(rt: &impl Print, table: &[u8], message: &[u8]) -> io::Result<()> {
    let mut store = [7u64; STORE];
    let answer = reader::read(table, message, &mut store);
    let Ok(reached) = answer else {
        return println!(rt; "not read");
    };
    let words = entry::front(&store, reached.count);
    println!(rt; "read {} bytes:{}", reached.place, Entries(words))?;
    println!(rt; "rest:{}", Hex(reader::rest(message, answer)))?;
    write_again(rt, table, words, message)
}

fn there_and_back(rt: &impl Print, table: &[u8], words: &[u64], pool: &[u8]) -> io::Result<()> {
    let mut message = [0xeeu8; ROOM];
    match writer::write(table, words, pool, &mut message) {
        Err(refused) => println!(rt; "{}, at {}: not written", Why(refused.why), refused.place),
        Ok(place) => {
            println!(rt; "written {place} bytes, then as before:{}", Hex(&message))?;
            read_back(rt, table, &message)
        }
    }
}

// ---- refusals

// Writes to five bytes, and says what came back and what stands there then.
fn write_short(rt: &impl Print, table: &[u8], words: &[u64], pool: &[u8]) -> io::Result<()> {
    let mut out = [0xeeu8; 5];
    match writer::write(table, words, pool, &mut out) {
        Ok(place) => print!(rt; ": done at {place}")?,
        Err(refused) => print!(rt; ": refused {}, at {}", Why(refused.why), refused.place)?,
    }
    println!(rt; "; out{}", Hex(&out))
}

// ---- the list

// A record is a name, a table, a value list and a pool.
fn write_record(rt: &impl Print, which: usize, record: &[u8]) -> io::Result<()> {
    let mut room = [0u64; LONGEST];
    let list = part(record, 2);
    put_words(&mut room, list);
    if let Some(words) = room.get(..list.len() / 8) {
        if which == 0 {
            return there_and_back(rt, part(record, 1), words, part(record, 3));
        }
        rt.write_all(part(record, 0))?;
        write_short(rt, part(record, 1), words, part(record, 3))?;
    }
    Ok(())
}

fn write_all(rt: &impl Print, lists: &[u8]) -> io::Result<()> {
    for which in 0..LISTS {
        write_record(rt, which, part(lists, which))?;
    }
    Ok(())
}

fn main(rt: HostRuntime) -> io::Result<()> {
    let mut room = host::buffer();
    let end = host::read_full(&mut rt.stdin(), &mut room)?;
    write_all(&rt, &room[..end])
}

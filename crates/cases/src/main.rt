// Reads the messages of its list, document 01's reading cases and three tables that must not take long, and writes what
// comes back. crates/recorded/make has the list.
#![tactic(auto)]

use recorded::field::{number_at, part};
use say::{Entries, Hex, Why};
use std::io;

// So many messages are in the list.
const MESSAGES: usize = 13;

// The largest store, of 256 entries.
const STORE: usize = 256 * entry::WORDS;

// How many entries were made, and the first four.
fn say_made(rt: &impl Print, store: &[u64], count: usize) -> io::Result<()> {
    let shown = Entries(entry::front(store, count.min(4)));
    let more = if count <= 4 { "" } else { " .." };
    print!(rt; "; count {count}{shown}{more}")
}

// Reads a message into a lent store, and says what came back.
fn read_into(rt: &impl Print, table: &[u8], message: &[u8], store: &mut [u64]) -> io::Result<()> {
    let answer = reader::read(table, message, store);
    match answer {
        Ok(reached) => {
            print!(rt; ": done at {}", reached.place)?;
            say_made(rt, store, reached.count)?;
        }
        Err(stopped) => {
            print!(rt; ": refused {}, at {}", Why(stopped.why), stopped.place)?;
            say_made(rt, store, stopped.count)?;
        }
    }
    println!(rt; "; rest:{}", Hex(reader::rest(message, answer)))
}

// A record is a name, a table, a message, and how many words the store has.
fn read_record(rt: &impl Print, record: &[u8]) -> io::Result<()> {
    let mut store = [7u64; STORE];
    let size = number_at(record, 3) as usize;
    if let Some(lent) = store.get_mut(..size) {
        rt.write_all(part(record, 0))?;
        read_into(rt, part(record, 1), part(record, 2), lent)?;
    }
    Ok(())
}

fn read_all(rt: &impl Print, list: &[u8]) -> io::Result<()> {
    for which in 0..MESSAGES {
        read_record(rt, part(list, which))?;
    }
    Ok(())
}

fn main(rt: HostRuntime) -> io::Result<()> {
    let mut room = host::large_buffer();
    let end = host::read_full(&mut rt.stdin(), &mut room)?;
    read_all(&rt, &room[..end])
}

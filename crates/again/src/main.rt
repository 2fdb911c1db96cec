// Reads the messages of its list, writes what was read again with the message as pool, and says whether the bytes come back;
// and of a message that doesn't, which item is to blame. crates/recorded/make has the list.
#![tactic(auto)]

use recorded::field::part;
use recorded::memory::same_words;
use say::{Count, Hex, Why, front};
use std::io;

// So many messages are in the list.
const MESSAGES: usize = 9;

// The longest value list, and the bytes that it is written to, with some to spare.
const STORE: usize = 5 * entry::WORDS;

const ROOM: usize = 8;

// ---- written again

// Writes entries with the message as pool, and says whether the bytes are those that were read.
fn write_again(
    rt: &impl Print,
    table: &[u8],
    words: &[u64],
    message: &[u8],
    read: usize,
) -> io::Result<()> {
    let mut out = [0xeeu8; ROOM];
    let Ok(place) = writer::write(table, words, message, &mut out) else {
        return print!(rt; "not written again");
    };
    let same = front(&out, place) == front(message, read);
    print!(rt;
        "written again to {place}: {}",
        if same { "the same" } else { "not the same" }
    )
}

// ---- read strictly

// Where an entry's own bytes end: where the next one's begin, or else where the reading ended.
#[tactic(auto, unfolding(wire::specs::Answers::room_of))]
fn own_end(words: &[u64], at: usize, end: usize) -> usize {
    let next = at.saturating_add(1);
    if next < entry::room(words.len()) {
        return entry::place(words, next) as usize;
    }
    end
}

// Says what the strict read answers. The item that it refuses is, of the plain reading's entries, the one behind the last that it made.
fn read_strictly(
    rt: &impl Print,
    table: &[u8],
    words: &[u64],
    message: &[u8],
    read: usize,
) -> io::Result<()> {
    let mut store = [7u64; STORE];
    match reader::read_strict(table, message, &mut store) {
        Ok(reached) if same_words(words, entry::front(&store, reached.count)) => println!(rt;
            "read strictly too, to the same entries"
        ),
        Ok(_) => println!(rt; "read strictly to other entries"),
        Err(stopped) => {
            let place = stopped.place;
            let end = own_end(words, stopped.count, read);
            let own = Hex(tail::from(front(message, end), place));
            println!(rt;
                "{}, at byte {place}, where the item's own bytes are{own}",
                Why(stopped.why)
            )
        }
    }
}

// ---- the list

fn read_and_write(rt: &impl Print, table: &[u8], message: &[u8]) -> io::Result<()> {
    let mut store = [7u64; STORE];
    let Ok(reached) = reader::read(table, message, &mut store) else {
        return println!(rt; "not read");
    };
    let place = reached.place;
    let words = entry::front(&store, reached.count);
    print!(rt; "{} read, ", Count(place as u64, "byte"))?;
    write_again(rt, table, words, message, place)?;
    print!(rt; "; ")?;
    read_strictly(rt, table, words, message, place)
}

// A record is a name, a table and a message.
fn take_record(rt: &impl Print, record: &[u8]) -> io::Result<()> {
    rt.write_all(part(record, 0))?;
    print!(rt; ": ")?;
    read_and_write(rt, part(record, 1), part(record, 2))
}

fn take_all(rt: &impl Print, list: &[u8]) -> io::Result<()> {
    for which in 0..MESSAGES {
        take_record(rt, part(list, which))?;
    }
    Ok(())
}

fn main(rt: HostRuntime) -> io::Result<()> {
    let mut room = host::buffer();
    let end = host::read_full(&mut rt.stdin(), &mut room)?;
    take_all(&rt, &room[..end])
}

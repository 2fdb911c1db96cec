// What a call tells and leaves in lent memory, against a record's parts.
use crate::told::Told;
use recorded::{field, memory};

// The room for the words of a store, a value list, a path or a list of pairs, and for the bytes of an output.
pub const WORDS: usize = 256 * entry::WORDS;

const OUT: usize = 1024;

// What stands in lent memory before a call.
pub const BEFORE: u64 = 11936128518282651045;

pub const BEFORE_BYTE: u8 = 165;

// Whether the record's first three fields tell the same.
pub fn tells(record: &[u8], told: Told) -> bool {
    let second = field::number_at(record, 1);
    let third = field::number_at(record, 2);
    let number = field::number_at(record, 0);
    told.number == number && told.second == second && told.third == third
}

// Whether a call that is lent as many bytes as the record's field `size` says agrees, and leaves there what its field `left` holds.
pub fn bytes<F: FnOnce(&mut [u8]) -> bool>(
    record: &[u8],
    size: usize,
    left: usize,
    agrees: F,
) -> bool
    requires { F.IsAlwaysCallable agrees }
{
    let mut out = [BEFORE_BYTE; OUT];
    let Some(lent) = out.get_mut(..field::number_at(record, size) as usize) else {
        return false;
    };
    if !agrees(lent) {
        return false;
    }
    let mut then = [BEFORE_BYTE; OUT];
    memory::put(&mut then, 0, field::part(record, left));
    out.as_slice() == then.as_slice()
}

// The same with words.
pub fn words<F: FnOnce(&mut [u64]) -> bool>(
    record: &[u8],
    size: usize,
    left: usize,
    agrees: F,
) -> bool
    requires { F.IsAlwaysCallable agrees }
{
    let mut store = [BEFORE; WORDS];
    let Some(lent) = store.get_mut(..field::number_at(record, size) as usize) else {
        return false;
    };
    if !agrees(lent) {
        return false;
    }
    let mut then = [BEFORE; WORDS];
    memory::put_words(&mut then, field::part(record, left));
    memory::same_words(&store, &then)
}

// The words that a record's field holds, in front of the room, if there are not more.
pub fn words_in<'a>(record: &[u8], which: usize, room: &'a mut [u64]) -> Option<&'a [u64]> {
    let part = field::part(record, which);
    memory::put_words(room, part);
    room.get(..part.len() / 8)
}

// Asks again what a record asked, and compares the whole of the answer with the record's. HOW.md has
// the order of a record's parts.
ghost use Rattle.std.specs.Prelude.{◌≡◌};
ghost use Rattle.desk.specs.Path.{second_of};

use crate::agree::{BEFORE, BEFORE_BYTE, WORDS, bytes, tells, words, words_in};
use crate::told;
use accumulator::Step;
use desk::{Found, NotFound, NotOpened};
use recorded::{field, memory};
use told::Told;
use wire::{Reached, RefusedAt, Stopped, Taken};

// The bytes of an accumulator, and the words of a list of open items.
const ROOM: usize = 2048;

const LIST: usize = 1024;

// How many bytes are lent behind the work area.
const BEHIND: usize = 4096;

// ---- reading

// By a reader with a list of open items, which must come back zero.
fn opens<F: FnOnce(&[u8], &[u8], &mut [u64], &mut [u64]) -> Result<Reached, NotOpened>>(
    record: &[u8],
    read: F,
) -> bool
    requires { F.IsAlwaysCallable read }
{
    let message = field::part(record, 4);
    let mut list = [BEFORE; LIST];
    let agrees = words(record, 5, 6, |store| {
        let answer = read(field::part(record, 3), message, store, &mut list);
        tells(record, told::open(answer)) && open::rest(message, answer) == field::part(record, 7)
    });
    agrees && memory::same_words(&list, &[0; LIST])
}

// By a reader without one.
fn reads<F: FnOnce(&[u8], &[u8], &mut [u64]) -> Result<Reached, Stopped>>(
    record: &[u8],
    read: F,
) -> bool
    requires { F.IsAlwaysCallable read }
{
    let message = field::part(record, 4);
    words(record, 5, 6, |store| {
        let answer = read(field::part(record, 3), message, store);
        tells(record, told::read(answer)) && reader::rest(message, answer) == field::part(record, 7)
    })
}

pub fn read(record: &[u8]) -> bool {
    reads(record, reader::read) && opens(record, open::read)
}

pub fn read_strict(record: &[u8]) -> bool {
    reads(record, reader::read_strict) && opens(record, open::read_strict)
}

// ---- writing

pub fn write(record: &[u8]) -> bool {
    let mut room = [0u64; WORDS];
    let Some(values) = words_in(record, 4, &mut room) else {
        return false;
    };
    bytes(record, 6, 7, |out| {
        let answer = writer::write(field::part(record, 3), values, field::part(record, 5), out);
        tells(record, told::write(answer))
    })
}

// ---- the append question

// The append question's work area with some bytes behind it, as they stand before a call.
fn work_area() -> [u8; append::AREA + BEHIND] {
    [BEFORE_BYTE; append::AREA + BEHIND]
}

// Whether a part holds one byte and no other. All bytes are looked at, since a search that ends at the first other byte took four
// times as long over the two mebibytes of a work area.
fn is_all(part: &[u8], byte: u8) -> bool {
    part.iter().fold(0, |others, own| others | (*own ^ byte)) == 0
}

// Asks in the front of an area, as long as the record says. An area that is long enough is handed back as zeros, and all other bytes
// as they were.
fn ask_within(record: &[u8], area: &mut [u8]) -> bool {
    let len = field::number_at(record, 5) as usize;
    let Some(lent) = area.get_mut(..len) else {
        return false;
    };
    let answer = append::appends(field::part(record, 3), field::part(record, 4), lent);
    let zeros = if len < append::AREA { 0 } else { append::AREA };
    let (front, behind) = area.split_at(zeros.min(area.len()));
    tells(record, told::ask(answer)) && is_all(front, 0) && is_all(behind, BEFORE_BYTE)
}

pub fn ask(record: &[u8]) -> bool {
    ask_within(record, &mut work_area())
}

// ---- the accumulator

// Whether the array is the record's with the part that must have changed, and the message the record's.
fn holds(record: &[u8], array: &[u8], message: &[u8]) -> bool {
    let mut then = [0u8; ROOM];
    memory::put(&mut then, 0, field::part(record, 4));
    let place = field::number_at(record, 8) as usize;
    memory::put(&mut then, place, field::part(record, 9));
    let mut decoded = [0u8; ROOM];
    memory::put(&mut decoded, 0, field::part(record, 7));
    array == then.as_slice() && message == decoded.as_slice()
}

// Whether a step's numbers and what it hands back of the chunk are the record's.
fn steps(record: &[u8], step: Step) -> bool {
    let told = Told {
        number: numbers::feed(step.answer),
        second: step.idx as u64,
        third: step.len as u64,
    };
    let rest = tail::from(field::part(record, 5), step.used);
    tells(record, told) && rest == field::part(record, 6)
}

// Whether a feed of the record's chunk agrees, with an array, the idx and room for a message.
fn feeds<F: FnOnce(&mut [u8], usize, &[u8], &mut [u8]) -> bool>(record: &[u8], agrees: F) -> bool
    requires { F.IsAlwaysCallable agrees }
{
    let mut array = [0u8; ROOM];
    let mut message = [BEFORE_BYTE; ROOM];
    memory::put(&mut array, 0, field::part(record, 4));
    let idx = field::number_at(record, 3) as usize;
    agrees(&mut array, idx, field::part(record, 5), &mut message) && holds(record, &array, &message)
}

// By default, with the mark before and after it.
pub fn feed(record: &[u8]) -> bool {
    let waiting = field::number_at(record, 10) == 1;
    let waits = field::number_at(record, 11) == 1;
    feeds(record, |array, idx, chunk, message| {
        let got = accumulator::feed_lent(array, idx, waiting, chunk, message);
        steps(record, got.step) && got.waiting == waits
    })
}

pub fn bridge(record: &[u8]) -> bool {
    feeds(record, |array, idx, chunk, message| {
        let step = accumulator::feed_bridge_lent(array, idx, chunk, message);
        steps(record, step)
    })
}

// ---- taking an item

// Whether the answer has the entry that the record has, or none where it has none.
fn is_entry(record: &[u8], answer: Result<Taken, RefusedAt>) -> bool {
    let then = field::part(record, 6);
    let Ok(taken) = answer else {
        return then.is_empty();
    };
    let mut made = [0u64; entry::WORDS];
    entry::put(&mut made, 0, taken.first, taken.second, taken.at);
    let mut words = [0u64; entry::WORDS];
    memory::put_words(&mut words, then);
    then.len() == 8 * entry::WORDS && memory::same_words(&made, &words)
}

pub fn take(record: &[u8]) -> bool {
    let message = field::part(record, 4);
    let place = field::number_at(record, 5) as usize;
    let answer = deserializer::take_at(field::number_at(record, 3), message, place);
    let behind = deserializer::place_after(place, answer);
    tells(record, told::take(answer, behind))
        && is_entry(record, answer)
        && tail::from(message, behind) == field::part(record, 7)
}

// ---- finding an item

#[tactic(auto, unfolding(desk::specs::Path::second_of))]
fn second_of(answer: Result<Found, NotFound>) -> u64
    ensures { result ≡ second_of answer }
{
    match answer {
        Ok(found) => found.second,
        Err(_) => 0,
    }
}

pub fn find(record: &[u8]) -> bool {
    let mut room = [0u64; WORDS];
    let Some(path) = words_in(record, 4, &mut room) else {
        return false;
    };
    let answer = find::find(field::part(record, 3), path, field::part(record, 5));
    tells(record, told::find(answer)) && field::number_at(record, 6) == second_of(answer)
}

// ---- two messages side by side

pub fn compare(record: &[u8]) -> bool {
    words(record, 6, 7, |list| {
        let table = field::part(record, 3);
        let answer = compare::compare(table, field::part(record, 4), field::part(record, 5), list);
        tells(record, told::compare(answer))
    })
}

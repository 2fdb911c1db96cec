// Asks again what a record asked about a night batch, and compares the whole of the answer with the record's.
ghost use Rattle.std.specs.Prelude.{◌≡◌};
ghost use Rattle.desk.specs.Batch.{len_of};

use crate::agree::{bytes, tells};
use crate::told;
use desk::{Fault, Key, Part};
use recorded::field;

// What a record asks.
const WRITE: u64 = 0;

const CHECK: u64 = 1;

fn write(record: &[u8]) -> bool {
    let store = field::number_at(record, 6) as usize;
    let product = field::number_at(record, 7) as usize;
    bytes(record, 8, 9, |out| {
        let table = field::part(record, 4);
        let answer = batch::write(table, field::part(record, 5), store, product, out);
        tells(record, told::written(answer))
    })
}

fn check(record: &[u8]) -> bool {
    let answer = batch::check(field::part(record, 4), field::part(record, 5));
    tells(record, told::checked(answer))
}

#[tactic(auto, unfolding(desk::specs::Batch::len_of))]
fn length_of(answer: Result<Part, Fault>) -> u64
    ensures { result ≡ len_of answer }
{
    match answer {
        Ok(part) => part.len as u64,
        Err(_) => 0,
    }
}

fn last(record: &[u8]) -> bool {
    let key = Key {
        store: field::number_at(record, 6),
        product: field::number_at(record, 7),
    };
    let answer = batch::last(field::part(record, 4), field::part(record, 5), key);
    tells(record, told::found(answer)) && field::number_at(record, 10) == length_of(answer)
}

// Whether the answer to what a record asks is the record's.
pub fn ask(record: &[u8]) -> bool {
    match field::number_at(record, 3) {
        WRITE => write(record),
        CHECK => check(record),
        _ => last(record),
    }
}

// Whether a compaction answers and leaves what the record has.
pub fn compact(record: &[u8]) -> bool {
    bytes(record, 5, 6, |out| {
        let answer = batch::compact(field::part(record, 3), field::part(record, 4), out);
        tells(record, told::written(answer))
    })
}

// Items taken one after the other from a message, each by its kind: a record of the message and the place, and the same calls
// with the message and the place as parameters.
#![tactic(auto)]

ghost use Rattle.std.specs.Prelude.{◌≡◌, drop};
ghost use Rattle.wire.specs.Answers.{may_take, takes, place_after};
ghost use Rattle.deserializer.specs.Records.{fresh, takes_next, moved, rest_from};

use wire::{Refusal, RefusedAt, Taken};

// Whether an item of the kind can be taken by itself.
fn may_take(kind: u64) -> bool
    ensures { result ≡ may_take kind }
{
    matches!(kind, 0..=13 | 20..=31)
}

// The item of a kind at a place of the message.
pub fn take_at(kind: u64, message: &[u8], place: usize) -> Result<Taken, RefusedAt>
    ensures { result ≡ takes kind message.now place }
{
    if !may_take(kind) {
        return Err(RefusedAt {
            why: Refusal::Record,
            place: 0,
        });
    }
    if message.len() < place {
        return Err(RefusedAt {
            why: Refusal::End,
            place,
        });
    }
    let got = leaf::take(kind as u8, &message[place..], place);
    match got {
        Ok(own) => {
            let behind = place + own.used;
            Ok(Taken {
                first: own.first,
                second: own.second,
                at: place,
                place: behind,
            })
        }
        Err(why) => Err(RefusedAt { why, place }),
    }
}

// The place of the next item: behind the one that was taken, or the old one.
pub fn place_after(place: usize, answer: Result<Taken, RefusedAt>) -> usize
    ensures { result ≡ place_after place answer }
{
    match answer {
        Ok(taken) => taken.place,
        Err(_) => place,
    }
}

// The bytes from a place on; none where it is beyond the message.
pub fn rest_at(message: &[u8], place: usize) -> &[u8]
    ensures { result.now ≡ drop place message.now }
{
    tail::from(message, place)
}

// A message and the place of its next item.
#[derive(Clone, Copy)]
pub struct Deserializer<'a> {
    pub message: &'a [u8],
    pub place: usize,
}

pub fn new<'a>(message: &'a [u8]) -> Deserializer<'a>
    ensures { result ≡ fresh message.entry }
{
    Deserializer { message, place: 0 }
}

// The item of a kind at the reader's place, which goes behind it; a refusal keeps the place.
pub fn take<'s, 'a>(reader: &'s mut Deserializer<'a>, kind: u64) -> Result<Taken, RefusedAt>
    ensures { (result ≡ takes_next kind reader.old) × (reader.new ≡ moved reader.old result) }
{
    let place = reader.place;
    let answer = take_at(kind, reader.message, place);
    reader.place = place_after(place, answer);
    answer
}

// The bytes from the reader's place on.
pub fn rest<'a>(reader: Deserializer<'a>) -> &'a [u8]
    ensures { result.now ≡ rest_from reader.entry }
{
    rest_at(reader.message, reader.place)
}

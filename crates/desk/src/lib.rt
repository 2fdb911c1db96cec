// The answers of the questions that document 02 adds. What they mean stands in specs/.
#![tactic(auto)]

ghost use Rattle.std.specs.Prelude.{◌≡◌};
ghost use Rattle.desk.specs.declared.NotRows.TheVariants.{Refused as NotRowsAt};
ghost use Rattle.desk.specs.declared.Fault.TheVariants.{Wire};
ghost use Rattle.desk.specs.declared.NotFound.TheVariants.{Refused as NotFoundAt};
ghost use Rattle.desk.specs.declared.NotCompared.TheVariants.{Refused as NotComparedAt};

use wire::{Refusal, RefusedAt};

// An item that was found by its path: its entry's words, and its place.
#[derive(Clone, Copy)]
pub struct Found {
    pub first: u64,
    pub second: u64,
    pub place: usize,
}

// Why an item isn't found: the path leads to no such item, the first option on the path that is absent stands at a place, or the
// reading's own refusal.
#[derive(Clone, Copy)]
pub enum NotFound {
    NoItem,
    Absent { place: usize },
    Refused { why: Refusal, place: usize },
}

impl From<RefusedAt> for NotFound {
    ghost from_gives = { λ refused cause. cause ≡ NotFoundAt refused.why refused.place };

    fn from(refused: RefusedAt) -> NotFound {
        NotFound::Refused {
            why: refused.why,
            place: refused.place,
        }
    }
}

// Why two messages aren't compared: the lent list is too short for their pairs, or a refusal: the table's or the first message's, or
// the second message's.
#[derive(Clone, Copy)]
pub enum NotCompared {
    Short,
    Refused { why: Refusal, place: usize },
    OtherRefused { why: Refusal, place: usize },
}

impl From<RefusedAt> for NotCompared {
    ghost from_gives = { λ refused cause. cause ≡ NotComparedAt refused.why refused.place };

    fn from(refused: RefusedAt) -> NotCompared {
        NotCompared::Refused {
            why: refused.why,
            place: refused.place,
        }
    }
}

// A store and a product, by which a message is asked for.
#[derive(Clone, Copy)]
pub struct Key {
    pub store: u64,
    pub product: u64,
}

// A row of a batch: the key of a message, and where it begins.
#[derive(Clone, Copy)]
pub struct Row {
    pub key: Key,
    pub offset: u64,
}

// Why a batch call refuses: by a refusal of the wire and its place, or by one of its own, at place 0: the key fields are unfit for
// the table, the batch is bad, or there is no such key.
#[derive(Clone, Copy)]
pub enum Fault {
    Wire { why: Refusal, place: usize },
    Fields,
    Batch,
    Missing,
}

impl From<RefusedAt> for Fault {
    ghost from_gives = { λ refused fault. fault ≡ Wire refused.why refused.place };

    fn from(refused: RefusedAt) -> Fault {
        Fault::Wire {
            why: refused.why,
            place: refused.place,
        }
    }
}

// A part of a batch: where it starts, and its length.
#[derive(Clone, Copy)]
pub struct Part {
    pub from: usize,
    pub len: usize,
}

// Why a reading with a lent list of open items stops: as a reading does, or because the list is too short.
#[derive(Clone, Copy)]
pub enum NotOpened {
    Refused {
        why: Refusal,
        place: usize,
        count: usize,
    },
    ShortList,
}

// Why there is no export or import: a refusal of the wire and its place; a table that has no rows; or the place where an input
// stops being a row.
#[derive(Clone, Copy)]
pub enum NotRows {
    Refused { why: Refusal, place: usize },
    Unfit,
    NoRow { place: usize },
}

// A refusal of the wire is one of an export or an import.
impl From<RefusedAt> for NotRows {
    ghost from_gives = { λ r e. e ≡ NotRowsAt r.why r.place };

    fn from(r: RefusedAt) -> NotRows {
        NotRows::Refused {
            why: r.why,
            place: r.place,
        }
    }
}

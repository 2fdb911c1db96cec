// The documents' numbers of answers, as the static library returns them and the programs say them.
#![tactic(auto)]

ghost use Rattle.std.specs.Prelude.{◌≡◌};
ghost use Rattle.wire.specs.Answers.{refusal_number, side_number, yes_number, feed_number};

use wire::{FeedAnswer, Refusal, Side};

pub fn refusal(why: Refusal) -> u64
    ensures { result ≡ refusal_number why }
{
    match why {
        Refusal::Trailer => 1,
        Refusal::Record => 2,
        Refusal::End => 3,
        Refusal::BadVarint => 4,
        Refusal::BadBool => 5,
        Refusal::BadChar => 6,
        Refusal::BadUtf8 => 7,
        Refusal::BadOption => 8,
        Refusal::Variant => 9,
        Refusal::Room => 10,
        Refusal::Values => 11,
        Refusal::Full => 12,
        Refusal::NotShortest => 16,
    }
}

// The append question's work area is too short.
pub const SHORT_AREA: u64 = 25;

// The list of open items that a reading was lent is too short.
pub const SHORT_OPEN: u64 = 22;

// A path leads to no item that can be found; an option on it is absent.
pub const NO_ITEM: u64 = 13;

pub const ABSENT: u64 = 14;

// The list that a comparison was lent is too short for its pairs.
pub const SHORT_LIST: u64 = 15;

// Key fields are unfit for the table; a batch is bad; it has no such key.
pub const UNFIT_FIELDS: u64 = 17;

pub const BAD_BATCH: u64 = 18;

pub const NO_KEY: u64 = 19;

// A table has no rows; an input stops being a row.
pub const NO_COLUMNS: u64 = 20;

pub const NO_ROW: u64 = 21;

// 0 for the old table, 1 for the new one.
pub fn side(side: Side) -> u64
    ensures { result ≡ side_number side }
{
    match side {
        Side::Old => 0,
        Side::New => 1,
    }
}

// 1 for yes, 0 for no.
pub fn yes(yes: bool) -> u64
    ensures { result ≡ yes_number yes }
{
    if yes { 1 } else { 0 }
}

pub fn feed(answer: FeedAnswer) -> u64
    ensures { result ≡ feed_number answer }
{
    match answer {
        FeedAnswer::Consumed => 20,
        FeedAnswer::OverFull => 21,
        FeedAnswer::BadFrame => 22,
        FeedAnswer::Frame => 23,
        FeedAnswer::BadState => 24,
    }
}

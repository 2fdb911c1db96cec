// How each answer is told in C: its number is returned, and its place and counts are left in the numbers lent.
#![tactic(auto)]

ghost use Rattle.std.specs.Prelude.{◌≡◌};
ghost use Rattle.wire.specs.Answers.{check_says, write_says};
ghost use Rattle.desk.specs.Batch.{fault_says, written_says, checked_says};
ghost use Rattle.desk.specs.Csv.{csv_says};
ghost use Rattle.telling.specs.Told.{Told, Counted, CountedOpen, ToldAsked, Took, Found as ToldFound, ToldCompared, ToldPart};
ghost use Rattle.telling.specs.Marks.{waits, mark_after};

use desk::{Fault, Found, NotCompared, NotFound, NotOpened, NotRows, Part};
use wire::{FeedAnswer, Layout, NotAsked, Reached, RefusedAt, Stopped, Taken};

pub fn checked(got: Result<Layout, RefusedAt>, place: &mut u64) -> u64
    ensures { Told (check_says got) result place.new }
{
    match got {
        Ok(_) => {
            *place = 0;
            0
        }
        Err(refused) => {
            *place = refused.place as u64;
            numbers::refusal(refused.why)
        }
    }
}

pub fn reading(got: Result<Reached, Stopped>, place: &mut u64, count: &mut u64) -> u64
    ensures { Counted got result place.new count.new }
{
    match got {
        Ok(reached) => {
            *place = reached.place as u64;
            *count = reached.count as u64;
            0
        }
        Err(stopped) => {
            *place = stopped.place as u64;
            *count = stopped.count as u64;
            numbers::refusal(stopped.why)
        }
    }
}

// A reading with a list of open items.
pub fn opened(got: Result<Reached, NotOpened>, place: &mut u64, count: &mut u64) -> u64
    ensures { CountedOpen got result place.new count.new }
{
    match got {
        Ok(reached) => {
            *place = reached.place as u64;
            *count = reached.count as u64;
            0
        }
        Err(cause) => match cause {
            NotOpened::Refused {
                why,
                place: at,
                count: made,
            } => {
                *place = at as u64;
                *count = made as u64;
                numbers::refusal(why)
            }
            NotOpened::ShortList => {
                *place = 0;
                *count = 0;
                numbers::SHORT_OPEN
            }
        },
    }
}

pub fn written(got: Result<usize, RefusedAt>, place: &mut u64) -> u64
    ensures { Told (write_says got) result place.new }
{
    match got {
        Ok(end) => {
            *place = end as u64;
            0
        }
        Err(refused) => {
            *place = refused.place as u64;
            numbers::refusal(refused.why)
        }
    }
}

// The append question: which table is refused, and whether the answer is yes.
pub fn asked(got: Result<bool, NotAsked>, place: &mut u64, which: &mut u64, yes: &mut u64) -> u64
    ensures { ToldAsked got result place.new which.new yes.new }
{
    match got {
        Ok(says) => {
            *place = 0;
            *which = 0;
            *yes = numbers::yes(says);
            0
        }
        Err(cause) => match cause {
            NotAsked::Table {
                side,
                why,
                place: node,
            } => {
                *place = node as u64;
                *which = numbers::side(side);
                *yes = 0;
                numbers::refusal(why)
            }
            NotAsked::ShortArea => {
                *place = 0;
                *which = 0;
                *yes = 0;
                numbers::SHORT_AREA
            }
        },
    }
}

// A mark is a number: any but 0 waits.
pub fn is_waiting(mark: u64) -> bool
    ensures { result ≡ waits mark }
{
    mark != 0
}

// The mark behind a feed: 24 leaves it as it was.
pub fn mark_after(answer: FeedAnswer, before: u64, waiting: bool) -> u64
    ensures { result ≡ mark_after answer before waiting }
{
    match answer {
        FeedAnswer::Consumed => numbers::yes(waiting),
        FeedAnswer::OverFull => numbers::yes(waiting),
        FeedAnswer::BadFrame => numbers::yes(waiting),
        FeedAnswer::Frame => numbers::yes(waiting),
        FeedAnswer::BadState => before,
    }
}

// One item's words and where it stands; a refusal keeps the place.
pub fn taken(
    got: Result<Taken, RefusedAt>,
    place: &mut u64,
    first: &mut u64,
    second: &mut u64,
    at: &mut u64,
) -> u64
    ensures { Took got place.old result place.new first.new second.new at.new }
{
    match got {
        Ok(item) => {
            *place = item.place as u64;
            *first = item.first;
            *second = item.second;
            *at = item.at as u64;
            0
        }
        Err(refused) => {
            *first = 0;
            *second = 0;
            *at = 0;
            numbers::refusal(refused.why)
        }
    }
}

pub fn found(
    got: Result<Found, NotFound>,
    place: &mut u64,
    first: &mut u64,
    second: &mut u64,
) -> u64
    ensures { ToldFound got result place.new first.new second.new }
{
    *first = 0;
    *second = 0;
    match got {
        Ok(entry) => {
            *place = entry.place as u64;
            *first = entry.first;
            *second = entry.second;
            0
        }
        Err(cause) => match cause {
            NotFound::NoItem => {
                *place = 0;
                numbers::NO_ITEM
            }
            NotFound::Absent { place: at } => {
                *place = at as u64;
                numbers::ABSENT
            }
            NotFound::Refused { why, place: at } => {
                *place = at as u64;
                numbers::refusal(why)
            }
        },
    }
}

pub fn compared(
    got: Result<usize, NotCompared>,
    place: &mut u64,
    which: &mut u64,
    count: &mut u64,
) -> u64
    ensures { ToldCompared got result place.new which.new count.new }
{
    *place = 0;
    *which = 0;
    *count = 0;
    match got {
        Ok(pairs) => {
            *count = pairs as u64;
            0
        }
        Err(cause) => match cause {
            NotCompared::Short => numbers::SHORT_LIST,
            NotCompared::Refused { why, place: at } => {
                *place = at as u64;
                numbers::refusal(why)
            }
            NotCompared::OtherRefused { why, place: at } => {
                *place = at as u64;
                *which = 1;
                numbers::refusal(why)
            }
        },
    }
}

// A batch call's refusal.
pub fn fault(got: Fault, place: &mut u64) -> u64
    ensures { Told (fault_says got) result place.new }
{
    match got {
        Fault::Wire { why, place: at } => {
            *place = at as u64;
            numbers::refusal(why)
        }
        Fault::Fields => {
            *place = 0;
            numbers::UNFIT_FIELDS
        }
        Fault::Batch => {
            *place = 0;
            numbers::BAD_BATCH
        }
        Fault::Missing => {
            *place = 0;
            numbers::NO_KEY
        }
    }
}

pub fn batch_written(got: Result<usize, Fault>, place: &mut u64) -> u64
    ensures { Told (written_says got) result place.new }
{
    match got {
        Ok(end) => {
            *place = end as u64;
            0
        }
        Err(why) => fault(why, place),
    }
}

pub fn batch_checked(got: Result<(), Fault>, place: &mut u64) -> u64
    ensures { Told (checked_says got) result place.new }
{
    match got {
        Ok(()) => {
            *place = 0;
            0
        }
        Err(why) => fault(why, place),
    }
}

// The part of a batch that a search found.
pub fn part(got: Result<Part, Fault>, place: &mut u64, from: &mut u64, len: &mut u64) -> u64
    ensures { ToldPart got result place.new from.new len.new }
{
    *from = 0;
    *len = 0;
    match got {
        Ok(stretch) => {
            *place = 0;
            *from = stretch.from as u64;
            *len = stretch.len as u64;
            0
        }
        Err(why) => fault(why, place),
    }
}

// An export or an import.
pub fn row(got: Result<usize, NotRows>, place: &mut u64) -> u64
    ensures { Told (csv_says got) result place.new }
{
    match got {
        Ok(end) => {
            *place = end as u64;
            0
        }
        Err(cause) => match cause {
            NotRows::Refused { why, place: at } => {
                *place = at as u64;
                numbers::refusal(why)
            }
            NotRows::Unfit => {
                *place = 0;
                numbers::NO_COLUMNS
            }
            NotRows::NoRow { place: at } => {
                *place = at as u64;
                numbers::NO_ROW
            }
        },
    }
}

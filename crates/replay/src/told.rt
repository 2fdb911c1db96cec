// The numbers that an answer of any kind begins with: document 01's number, the place, and a third.
ghost use Rattle.std.specs.Prelude.{◌≡◌};
ghost use Rattle.wire.specs.Answers.{read_says, write_says, ask_says, take_says};
ghost use Rattle.desk.specs.Listed.{open_says, open_count};
ghost use Rattle.desk.specs.Path.{find_says, first_of};
ghost use Rattle.desk.specs.Differ.{compare_says};
ghost use Rattle.desk.specs.Batch.{fault_says, written_says, checked_says, found_says, from_of};
ghost use Rattle.desk.specs.Csv.{csv_says};
ghost use Rattle.replay.specs.Told.{Tells, made, which, pairs_or_which};

use desk::{Fault, Found, NotCompared, NotFound, NotOpened, NotRows, Part};
use wire::{NotAsked, Reached, RefusedAt, Stopped, Taken};

#[derive(Clone, Copy, PartialEq, Eq)]
pub struct Told {
    pub number: u64,
    pub second: u64,
    pub third: u64,
}

fn says(number: u64, place: usize, third: u64) -> Told
    ensures { (result.number ≡ number) × (result.second ≡ place) × (result.third ≡ third) }
{
    let second = place as u64;
    Told {
        number,
        second,
        third,
    }
}

#[tactic(auto, unfolding(wire::specs::Answers::read_says, wire::specs::Answers::done, wire::specs::Answers::numbered, crate::specs::Told::made))]
pub fn read(answer: Result<Reached, Stopped>) -> Told
    ensures { Tells (read_says answer) (made answer) result }
{
    match answer {
        Ok(reached) => says(0, reached.place, reached.count as u64),
        Err(stopped) => says(
            numbers::refusal(stopped.why),
            stopped.place,
            stopped.count as u64,
        ),
    }
}

#[tactic(auto, unfolding(desk::specs::Listed::open_says, desk::specs::Listed::open_count, wire::specs::Answers::done, wire::specs::Answers::numbered))]
pub fn open(answer: Result<Reached, NotOpened>) -> Told
    ensures { Tells (open_says answer) (open_count answer) result }
{
    match answer {
        Ok(done) => says(0, done.place, done.count as u64),
        Err(NotOpened::Refused { why, place, count }) => says(
            numbers::refusal(why),
            place,
            count as u64,
        ),
        Err(NotOpened::ShortList) => says(numbers::SHORT_OPEN, 0, 0),
    }
}

#[tactic(auto, unfolding(wire::specs::Answers::write_says, wire::specs::Answers::done, wire::specs::Answers::numbered))]
pub fn write(answer: Result<usize, RefusedAt>) -> Told
    ensures { Tells (write_says answer) 0 result }
{
    match answer {
        Ok(place) => says(0, place, 0),
        Err(refused) => says(numbers::refusal(refused.why), refused.place, 0),
    }
}

#[tactic(auto, unfolding(wire::specs::Answers::ask_says, wire::specs::Answers::done, wire::specs::Answers::numbered, crate::specs::Told::which))]
pub fn ask(answer: Result<bool, NotAsked>) -> Told
    ensures { Tells (ask_says answer) (which answer) result }
{
    match answer {
        Ok(yes) => says(0, 0, numbers::yes(yes)),
        Err(NotAsked::Table { side, why, place }) => says(
            numbers::refusal(why),
            place,
            numbers::side(side),
        ),
        Err(NotAsked::ShortArea) => says(numbers::SHORT_AREA, 0, 0),
    }
}

#[tactic(auto, unfolding(wire::specs::Answers::take_says, wire::specs::Answers::done, wire::specs::Answers::numbered))]
pub fn take(answer: Result<Taken, RefusedAt>, behind: usize) -> Told
    ensures { Tells (take_says answer) behind result }
{
    match answer {
        Ok(taken) => says(0, taken.place, behind as u64),
        Err(refused) => says(numbers::refusal(refused.why), refused.place, behind as u64),
    }
}

#[tactic(auto, unfolding(desk::specs::Path::find_says, desk::specs::Path::first_of, wire::specs::Answers::done, wire::specs::Answers::numbered))]
pub fn find(answer: Result<Found, NotFound>) -> Told
    ensures { Tells (find_says answer) (first_of answer) result }
{
    match answer {
        Ok(found) => says(0, found.place, found.first),
        Err(NotFound::NoItem) => says(numbers::NO_ITEM, 0, 0),
        Err(NotFound::Absent { place }) => says(numbers::ABSENT, place, 0),
        Err(NotFound::Refused { why, place }) => says(numbers::refusal(why), place, 0),
    }
}

#[tactic(auto, unfolding(desk::specs::Differ::compare_says, crate::specs::Told::pairs_or_which, wire::specs::Answers::done, wire::specs::Answers::numbered))]
pub fn compare(answer: Result<usize, NotCompared>) -> Told
    ensures { Tells (compare_says answer) (pairs_or_which answer) result }
{
    match answer {
        Ok(count) => says(0, 0, count as u64),
        Err(NotCompared::Short) => says(numbers::SHORT_LIST, 0, 0),
        Err(NotCompared::Refused { why, place }) => says(numbers::refusal(why), place, 0),
        Err(NotCompared::OtherRefused { why, place }) => says(numbers::refusal(why), place, 1),
    }
}

#[tactic(auto, unfolding(desk::specs::Batch::fault_says, wire::specs::Answers::numbered))]
fn fault(why: Fault) -> Told
    ensures { Tells (fault_says why) 0 result }
{
    match why {
        Fault::Wire { why: reason, place } => says(numbers::refusal(reason), place, 0),
        Fault::Fields => says(numbers::UNFIT_FIELDS, 0, 0),
        Fault::Batch => says(numbers::BAD_BATCH, 0, 0),
        Fault::Missing => says(numbers::NO_KEY, 0, 0),
    }
}

#[tactic(auto, unfolding(desk::specs::Batch::written_says, wire::specs::Answers::done))]
pub fn written(answer: Result<usize, Fault>) -> Told
    ensures { Tells (written_says answer) 0 result }
{
    match answer {
        Ok(place) => says(0, place, 0),
        Err(why) => fault(why),
    }
}

#[tactic(auto, unfolding(desk::specs::Batch::checked_says, wire::specs::Answers::done))]
pub fn checked(answer: Result<(), Fault>) -> Told
    ensures { Tells (checked_says answer) 0 result }
{
    match answer {
        Ok(()) => says(0, 0, 0),
        Err(why) => fault(why),
    }
}

#[tactic(auto, unfolding(desk::specs::Batch::found_says, desk::specs::Batch::from_of, wire::specs::Answers::done))]
pub fn found(answer: Result<Part, Fault>) -> Told
    ensures { Tells (found_says answer) (from_of answer) result }
{
    match answer {
        Ok(part) => says(0, 0, part.from as u64),
        Err(why) => fault(why),
    }
}

#[tactic(auto, unfolding(desk::specs::Csv::csv_says, wire::specs::Answers::done, wire::specs::Answers::numbered))]
pub fn row(answer: Result<usize, NotRows>) -> Told
    ensures { Tells (csv_says answer) 0 result }
{
    match answer {
        Ok(place) => says(0, place, 0),
        Err(NotRows::Refused { why, place }) => says(numbers::refusal(why), place, 0),
        Err(NotRows::Unfit) => says(numbers::NO_COLUMNS, 0, 0),
        Err(NotRows::NoRow { place }) => says(numbers::NO_ROW, place, 0),
    }
}

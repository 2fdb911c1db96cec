// What is said of a message's entry: a line of the whole message, or, if it differs, what it is here and in another message.
ghost use Rattle.std.specs.Prelude.{◌≤◌, ◌<◌};
ghost use Rattle.wire.specs.Answers.{room_of};

use crate::names::Kind;
use crate::value::{Value, say_value};
use crate::way::{Last, Way, Whole};
use say::{Hex, Indent};
use std::io;

// What a reading left to show: so many entries, and, if their own bytes are shown too, where the last one's end.
#[derive(Clone, Copy)]
pub struct Made {
    pub count: usize,
    pub end: Option<usize>,
}

// Another message, and its entries where they differ from those of the shown one.
#[derive(Clone, Copy)]
pub struct Beside<'a> {
    pub lined: &'a [u64],
    pub message: &'a [u8],
}

// A message, its entries and those that were made; and another one, if only what differs is to be shown.
#[derive(Clone, Copy)]
pub struct Shown<'a> {
    pub words: &'a [u64],
    pub made: Made,
    pub message: &'a [u8],
    pub beside: Option<Beside<'a>>,
}

// An item of a kind with so many children, by the number of its entry and its depth below the root.
#[derive(Clone, Copy)]
pub struct Item {
    pub kind: Kind,
    pub width: usize,
    pub at: usize,
    pub depth: usize,
}

// The kind and the value of an item, as a message's entries have it.
fn say_item(rt: &impl Print, item: Item, words: &[u64], message: &[u8]) -> io::Result<()>
    requires { item.at < room_of words.now }
{
    let Item {
        kind,
        width,
        at,
        ..
    } = item;
    print!(rt; "{kind}")?;
    let value = Value {
        kind,
        width,
        first: entry::first(words, at),
        second: entry::second(words, at),
        message,
    };
    say_value(rt, value)
}

// The place of an item, and its own bytes: those up to the next item's place, or to where the reading ended.
fn say_own(rt: &impl Print, shown: Shown, at: usize, end: usize) -> io::Result<()>
    requires { (at < shown.made.count) × (shown.made.count ≤ room_of shown.words.now) }
{
    let from = entry::place(shown.words, at);
    let next = at + 1;
    let to = if next < shown.made.count {
        entry::place(shown.words, next) as usize
    } else {
        end
    };
    let own = shown.message.get(from as usize..to).unwrap_or(&[]);
    print!(rt; ", at byte {from}:{}", Hex(own))
}

// An item on a line of its own, indented as the shape is.
fn say_line(rt: &impl Print, shown: Shown, item: Item, way: &Way) -> io::Result<()>
    requires { (item.at < shown.made.count) × (shown.made.count ≤ room_of shown.words.now) }
{
    print!(rt; "{}{}: ", Indent(item.depth), Last(way, item.depth))?;
    say_item(rt, item, shown.words, shown.message)?;
    if let Some(end) = shown.made.end {
        say_own(rt, shown, item.at, end)?;
    }
    print!(rt; "\n")
}

// An item under its way, and what the other message has there, if they differ.
fn say_change(
    rt: &impl Print,
    shown: Shown,
    beside: Beside,
    item: Item,
    way: &Way,
) -> io::Result<()>
    requires { (item.at < room_of shown.words.now) × (item.at < room_of beside.lined.now) }
{
    let here = entry::place(shown.words, item.at);
    let there = entry::place(beside.lined, item.at);
    if 0 < there {
        print!(rt; "{}:\n  one: ", Whole(way, item.depth))?;
        say_item(rt, item, shown.words, shown.message)?;
        print!(rt; ", at byte {here}\n  other: ")?;
        say_item(rt, item, beside.lined, beside.message)?;
        println!(rt; ", at byte {}", there - 1)?;
    }
    Ok(())
}

// What is said of an item. Where another message's entries are lined up with these, only what differs is.
#[tactic(auto, unfolding(wire::specs::Answers::room_of))]
pub fn say_entry(rt: &impl Print, shown: Shown, item: Item, way: &Way) -> io::Result<()>
    requires { (item.at < shown.made.count) × (shown.made.count ≤ room_of shown.words.now) }
{
    if let Some(beside) = shown.beside {
        if item.at < entry::room(beside.lined.len()) {
            return say_change(rt, shown, beside, item, way);
        }
    }
    say_line(rt, shown, item, way)
}

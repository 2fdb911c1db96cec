// A message's entries: all of them, each on a line and indented as the shape is, or only those that differ from another message's.
ghost use Rattle.std.specs.Prelude.{◌+◌, ◌≤◌, ◌<◌, IfOk};
ghost use Rattle.wire.specs.Shape.{depth as depth_of};
ghost use Rattle.wire.specs.Answers.{room_of};
ghost use Rattle.laws.specs.Tables.{node_shape, GoodTable};

use crate::line::{Beside, Item, Made, Shown, say_entry};
use crate::names::{Form, Kind, Position};
use crate::parts::child;
use crate::tree::say_bad;
use crate::way::{Step, Way};
use say::{Count, Hex, Why};
use std::io;
use wire::{Layout, Reached, Refusal, Stopped};

// What follows an item: rounds over the children from one position up to another.
#[derive(Clone, Copy)]
struct Span {
    rounds: u64,
    from: usize,
    to: usize,
}

fn span_of(kind: Kind, first: u64, width: usize) -> Span
    ensures { result.to ≤ width }
{
    let (rounds, from, to) = match Form::from(kind) {
        Form::Option | Form::Sequence | Form::Map => (first, 0, width),
        Form::Enum if first < width as u64 => (1, first as usize, first as usize + 1),
        Form::Enum => (0, 0, 0),
        Form::Leaf | Form::Struct => (1, 0, width),
    };
    Span { rounds, from, to }
}

// The item of the entry `at` and those below it, and the entry that comes next.
fn show_item(
    rt: &impl Print,
    table: &[u8],
    l: Layout,
    node: usize,
    shown: Shown,
    way: &mut Way,
    depth: usize,
    at: usize,
) -> io::Result<usize>
    requires good_table { GoodTable table.now l }
    requires node_lt_nodes { (node < l.nodes) × (depth + depth_of (node_shape table.now l node) ≤ 256) }
    requires at_lt_count { (at < shown.made.count) × (shown.made.count ≤ room_of shown.words.now) }
    ensures { IfOk result (λ next. next ≤ shown.entry.made.count) }
{
    let kind = Kind(table::kind_at(table, l, node));
    let width = table::child_count(table, l, node);
    let item = Item {
        kind,
        width,
        at,
        depth,
    };
    say_entry(rt, shown, item, way)?;
    let span = span_of(kind, entry::first(shown.words, at), width);
    let mut next = at + 1;
    for round in 0..span.rounds {
        for k in span.from..span.to {
            if shown.made.count <= next {
                return Ok(next);
            }
            let position = Position::of(kind, k as u64);
            way.keep(depth, Step { position, round });
            let c = child(table, l, node, k);
            next = show_item(rt, table, l, c, shown, way, depth + 1, next)?;
        }
    }
    Ok(next)
}

// The entries that were made, if there are so many words.
#[tactic(auto, unfolding(wire::specs::Answers::room_of))]
fn show_entries(rt: &impl Print, table: &[u8], l: Layout, shown: Shown) -> io::Result<()>
    requires { GoodTable table.now l }
{
    let count = shown.made.count;
    if 0 < count && count <= entry::room(shown.words.len()) {
        show_item(rt, table, l, l.root, shown, &mut Way::new(), 0, 0)?;
    }
    Ok(())
}

// How far a reading came, whatever it answered.
fn how_far(answer: Result<Reached, Stopped>) -> Reached {
    match answer {
        Ok(reached) => reached,
        Err(Stopped { place, count, .. }) => Reached { place, count },
    }
}

fn show_end(rt: &impl Print, answer: Result<Reached, Stopped>, rest: &[u8]) -> io::Result<()> {
    match answer {
        Ok(reached) => println!(rt;
            "read {}; rest:{}",
            Count(reached.place as u64, "byte"),
            Hex(rest)
        ),
        Err(stopped) => println!(rt; "refused: {}, at byte {}", Why(stopped.why), stopped.place),
    }
}

// Where the own bytes of the item in front of the entry `at` end: where that one's begin, or else where the reading ended.
#[tactic(auto, unfolding(wire::specs::Answers::room_of))]
fn end_before(store: &[u64], answer: Result<Reached, Stopped>, at: usize) -> usize {
    let Reached { place, count } = how_far(answer);
    if at < count && at < entry::room(store.len()) {
        return entry::place(store, at) as usize;
    }
    place
}

fn is_longer(why: Refusal) -> bool {
    matches!(why, Refusal::NotShortest)
}

// What a strict reading left to show. A plain one has read the item that isn't in its shortest form, so that one is shown too.
fn made_strictly(
    store: &[u64],
    strict: Result<Reached, Stopped>,
    plain: Result<Reached, Stopped>,
) -> Made {
    let Reached { place, count } = how_far(strict);
    match strict {
        Err(stopped) if is_longer(stopped.why) && count < entry::room(store.len()) => Made {
            count: count + 1,
            end: Some(end_before(store, plain, count + 1)),
        },
        _ => Made {
            count,
            end: Some(place),
        },
    }
}

// The entries that are to be shown, and the rest or why the message is refused.
fn show_made(
    rt: &impl Print,
    table: &[u8],
    shown: Shown,
    answer: Result<Reached, Stopped>,
    rest: &[u8],
) -> io::Result<()> {
    match table::check(table) {
        Err(bad) => say_bad(rt, bad),
        Ok(layout) => {
            show_entries(rt, table, layout, shown)?;
            show_end(rt, answer, rest)
        }
    }
}

// What reading a message by a table answered: the entries in the store, with their places and bytes where they are asked for,
// and the rest or why it is refused.
pub fn show<'a>(
    rt: &impl Print,
    table: &[u8],
    message: &'a [u8],
    store: &'a [u64],
    answer: Result<Reached, Stopped>,
    rest: &[u8],
    bytes: bool,
) -> io::Result<()> {
    let Reached { place, count } = how_far(answer);
    let end = if bytes { Some(place) } else { None };
    let shown = Shown {
        words: store,
        made: Made { count, end },
        message,
        beside: None,
    };
    show_made(rt, table, shown, answer, rest)
}

// What reading a message strictly by a table answered: the entries that a plain reading left in the store, as far as the strict
// one goes, with their places and bytes; last the item, if one there is, that isn't in its shortest form.
pub fn show_strictly<'a>(
    rt: &impl Print,
    table: &[u8],
    message: &'a [u8],
    store: &'a [u64],
    strict: Result<Reached, Stopped>,
    plain: Result<Reached, Stopped>,
    rest: &[u8],
) -> io::Result<()> {
    let shown = Shown {
        words: store,
        made: made_strictly(store, strict, plain),
        message,
        beside: None,
    };
    show_made(rt, table, shown, strict, rest)
}

// The items in which a message differs from another, each under its way: the entries that were made, and the other's lined up
// with them.
pub fn show_changes<'a>(
    rt: &impl Print,
    table: &[u8],
    message: &'a [u8],
    words: &'a [u64],
    beside: Beside<'a>,
) -> io::Result<()> {
    match table::check(table) {
        Err(bad) => say_bad(rt, bad),
        Ok(layout) => {
            let made = Made {
                count: entry::room(words.len()),
                end: None,
            };
            let shown = Shown {
                words,
                made,
                message,
                beside: Some(beside),
            };
            show_entries(rt, table, layout, shown)
        }
    }
}

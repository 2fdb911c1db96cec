// One item of a message, found by its path.
ghost use Rattle.laws.specs.Tables.{GoodTable};

use crate::names::Kind;
use crate::path::node_at;
use crate::tree::say_bad;
use crate::value::{Value, say_value};
use desk::{Found, NotFound};
use say::Why;
use std::io;
use wire::Layout;

fn show_found(
    rt: &impl Print,
    table: &[u8],
    l: Layout,
    path: &[u64],
    message: &[u8],
    found: Found,
) -> io::Result<()>
    requires { GoodTable table.now l }
{
    print!(rt; "root")?;
    let node = node_at(rt, table, l, path, true)?;
    let kind = Kind(table::kind_at(table, l, node));
    print!(rt; ": {kind}")?;
    let value = Value {
        kind,
        width: 0,
        first: found.first,
        second: found.second,
        message,
    };
    say_value(rt, value)?;
    println!(rt; ", at byte {}", found.place)
}

fn show_none(rt: &impl Print, none: NotFound) -> io::Result<()> {
    match none {
        NotFound::NoItem => println!(rt; "refused: 13, the path leads to no single value"),
        NotFound::Absent { place } => println!(rt;
            "refused: 14, an option on the path is absent, at byte {place}"
        ),
        NotFound::Refused { why, place } => println!(rt; "refused: {}, at byte {place}", Why(why)),
    }
}

// What the question for the item at a path answered: the item with its path, its value and its place, or why there is none.
pub fn show(
    rt: &impl Print,
    table: &[u8],
    path: &[u64],
    message: &[u8],
    answer: Result<Found, NotFound>,
) -> io::Result<()> {
    match table::check(table) {
        Err(bad) => say_bad(rt, bad),
        Ok(layout) => match answer {
            Ok(found) => show_found(rt, table, layout, path, message, found),
            Err(none) => show_none(rt, none),
        },
    }
}

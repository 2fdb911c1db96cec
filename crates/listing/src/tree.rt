// A table's shape as an indented tree.
ghost use Rattle.std.specs.Prelude.{◌≡◌, ◌+◌, ◌≤◌, ◌<◌, length};
ghost use Rattle.wire.specs.Shape.{depth as depth_of};
ghost use Rattle.laws.specs.Tables.{node_shape, GoodTable};

use crate::names::{Form, Kind, Position};
use crate::parts::child;
use say::{Count, Indent, Why};
use std::io;
use wire::{Layout, Refusal, RefusedAt};

// A table that is not good: why, and where.
pub fn say_bad(rt: &impl Print, bad: RefusedAt) -> io::Result<()> {
    let at = match bad.why {
        Refusal::Record => "node",
        _ => "place",
    };
    println!(rt;
        "the table is not good: {}, at {at} {}",
        Why(bad.why),
        bad.place
    )
}

// How many children a struct or an enum has; the other kinds' are always as many.
fn say_width(rt: &impl Print, kind: Kind, width: usize) -> io::Result<()> {
    match Form::from(kind) {
        Form::Struct => print!(rt; " of {}", Count(width as u64, "field")),
        Form::Enum => print!(rt; " of {}", Count(width as u64, "variant")),
        _ => Ok(()),
    }
}

pub fn say_node(rt: &impl Print, table: &[u8], l: Layout, node: usize) -> io::Result<()>
    requires good_table { GoodTable table.now l }
    requires node_lt_nodes { node < l.nodes }
{
    let kind = Kind(table::kind_at(table, l, node));
    print!(rt; "node {node}, {kind}")?;
    say_width(rt, kind, table::child_count(table, l, node))
}

// A node and what is below it; what was shown before isn't shown again, since a shape may be much larger than its table.
fn show_node(
    rt: &impl Print,
    table: &[u8],
    l: Layout,
    node: usize,
    depth: usize,
    seen: &mut [bool],
) -> io::Result<()>
    requires good_table { GoodTable table.now l }
    requires node_lt_nodes { (node < l.nodes) × (l.nodes ≤ length seen.old) }
    requires node_bound { depth + depth_of (node_shape table.now l node) ≤ 256 }
    ensures { length seen.new ≡ length seen.old }
{
    say_node(rt, table, l, node)?;
    let width = table::child_count(table, l, node);
    if width == 0 {
        return print!(rt; "\n");
    }
    if seen[node] {
        return print!(rt; ", as above\n");
    }
    seen[node] = true;
    print!(rt; "\n")?;
    let kind = Kind(table::kind_at(table, l, node));
    for k in 0..width {
        print!(rt; "{}{}: ", Indent(depth + 1), Position::of(kind, k as u64))?;
        show_node(rt, table, l, child(table, l, node, k), depth + 1, seen)?;
    }
    Ok(())
}

// Whether a table is good, and its tree.
pub fn show(rt: &impl Print, table: &[u8]) -> io::Result<()> {
    match table::check(table) {
        Err(bad) => say_bad(rt, bad),
        Ok(layout) => {
            print!(rt;
                "good table of {}\nroot: ",
                Count(layout.nodes as u64, "node")
            )?;
            let root = layout.root;
            let mut seen = [false; 4096];
            show_node(rt, table, layout, root, 0, &mut seen)
        }
    }
}

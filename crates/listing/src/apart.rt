// Where the shapes of two tables part, if the append question is answered by no.
use crate::path::node_at;
use crate::tree::{say_bad, say_node};
use std::io;
use wire::{RefusedAt, Side};

// The node at the path's end, behind a text, and behind the names of the path's positions if asked for.
fn say_end(rt: &impl Print, table: &[u8], path: &[u64], aloud: bool, text: &str) -> io::Result<()> {
    match table::check(table) {
        Ok(layout) => {
            let node = node_at(rt, table, layout, path, aloud)?;
            rt.print(text)?;
            say_node(rt, table, layout, node)
        }
        Err(bad) => say_bad(rt, bad),
    }
}

// The first place where the shapes part, by the positions that lead there.
pub fn show(rt: &impl Print, old: &[u8], new: &[u8], path: &[u64]) -> io::Result<()> {
    print!(rt; "no: the new table does more than append.\nThe shapes part at root")?;
    say_end(rt, old, path, true, ":\n  old: ")?;
    say_end(rt, new, path, false, "\n  new: ")?;
    print!(rt; "\n")
}

// The question isn't answered, as one of the tables is not good.
pub fn show_bad(rt: &impl Print, side: Side, bad: RefusedAt) -> io::Result<()> {
    match side {
        Side::Old => print!(rt; "old: ")?,
        Side::New => print!(rt; "new: ")?,
    }
    say_bad(rt, bad)
}

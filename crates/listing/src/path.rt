// The node that a path of child positions leads to.
ghost use Rattle.std.specs.Prelude.{◌<◌, IfOk};
ghost use Rattle.laws.specs.Tables.{GoodTable};

use crate::names::{Kind, Position};
use crate::parts::child;
use std::io;
use wire::Layout;

// A path has at most so many positions.
pub const DEEPEST: usize = 256;

// The node that the path leads to; where a position isn't there, the node above it. Aloud, it names the positions.
pub fn node_at(
    rt: &impl Print,
    table: &[u8],
    l: Layout,
    path: &[u64],
    aloud: bool,
) -> io::Result<usize>
    requires { GoodTable table.now l }
    ensures { IfOk result (λ node. node < l.nodes) }
{
    let mut node = l.root;
    for position in path {
        let k = *position;
        if aloud {
            let kind = Kind(table::kind_at(table, l, node));
            print!(rt; ", {}", Position::of(kind, k))?;
        }
        if table::child_count(table, l, node) <= k as usize {
            return Ok(node);
        }
        node = child(table, l, node, k as usize);
    }
    Ok(node)
}

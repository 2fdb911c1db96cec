// A good table's nodes, one by one.
ghost use Rattle.std.specs.Prelude.{◌<◌};
ghost use Rattle.wire.specs.Shape.{depth as depth_of};
ghost use Rattle.wire.specs.Table.{node_at, record_of};
ghost use Rattle.laws.specs.Tables.{node_count, node_shape, GoodTable};

use wire::Layout;

// The number of a node's child at a position: it is below the node's own, and the child's chain is shorter.
pub fn child(table: &[u8], l: Layout, node: usize, k: usize) -> usize
    requires good_table { GoodTable table.now l }
    requires node_lt_nodes { node < l.nodes }
    requires k_bound { k < node_count (node_at table.now (record_of l node)) }
    ensures { (result < node) × (depth_of (node_shape table.now l result) < depth_of (node_shape table.now l node)) }
{
    let from = table::first_child(table, l, node);
    table::u16_at(table, from + 2 * k)
}

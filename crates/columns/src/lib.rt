// The fields of a table whose messages have rows: a root struct of few enough fields, each of a kind that a row spells.
#![tactic(auto)]

ghost use Rattle.std.specs.Prelude.{◌≡◌, ◌+◌, ◌*◌, ◌<◌};
ghost use Rattle.wire.specs.Table.{kind_of, u16_at, node_at, record_of};
ghost use Rattle.laws.specs.Tables.{GoodTable};
ghost use Rattle.table.specs.Parts.{Falls};
ghost use Rattle.desk.specs.Csv.{style_of};
ghost use Rattle.columns.specs.Columns.{is_some, all_styled, field_shapes, Finds};

use wire::Layout;

// So many fields' numbers, which stand at `from` in the table.
#[derive(Clone, Copy)]
pub struct Columns {
    pub from: usize,
    pub width: usize,
}

impl Columns {
    // The kind of a field.
    pub fn kind(self, table: &[u8], l: Layout, i: usize) -> u8
        requires good_table { GoodTable table.now l }
        requires falls { Falls table.now self.from self.width l.nodes }
        requires there { i < self.width }
        ensures { result ≡ (node_at table.now (record_of l (u16_at table.now (self.from + 2 * i)))).number }
    {
        let c = table::u16_at(table, self.from + 2 * i);
        table::kind_at(table, l, c)
    }
}

// The most fields of a row.
const MOST: usize = 1024;

// A kind that a row spells: 0 to 13 or 20 to 31.
fn is_field(number: u8) -> bool
    ensures { result ≡ is_some (style_of (kind_of number)) }
{
    match number {
        0..=13 => true,
        20..=31 => true,
        _ => false,
    }
}

// Whether all fields are of such kinds.
fn all_fields(table: &[u8], l: Layout, fields: Columns) -> bool
    requires good_table { GoodTable table.now l }
    requires falls { Falls table.now fields.from fields.width l.nodes }
    ensures { result ≡ all_styled (field_shapes table.now l fields.from fields.width) }
{
    for i in 0..fields.width {
        if !is_field(fields.kind(table, l, i)) {
            return false;
        }
    }
    true
}

// The fields of a good table's rows.
pub fn find(table: &[u8], l: Layout) -> Option<Columns>
    requires { GoodTable table.now l }
    ensures { Finds table.now l result }
{
    let root = l.root;
    let number = table::kind_at(table, l, root);
    if number != 18 {
        return None;
    }
    let width = table::child_count(table, l, root);
    if MOST < width {
        return None;
    }
    let from = table::first_child(table, l, root);
    let fields = Columns { from, width };
    all_fields(table, l, fields).then_some(fields)
}

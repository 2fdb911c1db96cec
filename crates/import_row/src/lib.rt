// The message of a row in a lent output: one pass reads the row, measures the message and keeps it in a room of its own, from which it is
// copied; a second pass writes only what is longer than that room.
#![tactic(auto)]

ghost use Rattle.std.specs.Prelude.{◌≤◌, length};
ghost use Rattle.desk.specs.Csv.{columns};
ghost use Rattle.columns.specs.Columns.{field_shapes, Rowed};
ghost use Rattle.export_row.specs.Outputs.{Gives};
ghost use Rattle.take_row.specs.Messages.{taken_by};
ghost use Rattle.import_row.specs.Outputs.{taken_output};

use columns::Columns;
use desk::NotRows;
use wire::{Layout, Refusal};

// The room for the message of few fields that are short, which is soon cleared, and of others.
const SHORT: usize = 256;

const LONG: usize = 8192;

const FEW: usize = 12;

// The message of a row whose fields' numbers stand in the table, kept in a room on its way.
fn import_kept(
    table: &[u8],
    l: Layout,
    fields: Columns,
    row: &[u8],
    kept: &mut [u8],
    out: &mut [u8],
) -> Result<usize, NotRows>
    requires { Rowed table.now l fields.from fields.width }
    ensures { Gives (taken_output (length out.old) (taken_by (columns (field_shapes table.now l fields.from fields.width)) row.now)) out.old result out.new }
{
    let len = take_row::take_row(table, l, fields, row, kept)?;
    if out.len() < len {
        return Err(NotRows::Refused {
            why: Refusal::Full,
            place: 0,
        });
    }
    if len <= kept.len() {
        output::put_bytes(&kept[..len], out, 0);
        return Ok(len);
    }
    take_row::take_row(table, l, fields, row, out)?;
    Ok(len)
}

// The same in a room of so many bytes.
fn import_in<const ROOM: usize>(
    table: &[u8],
    l: Layout,
    fields: Columns,
    row: &[u8],
    out: &mut [u8],
) -> Result<usize, NotRows>
    requires rows { Rowed table.now l fields.from fields.width }
    requires small { ROOM ≤ 8192 }
    ensures { Gives (taken_output (length out.old) (taken_by (columns (field_shapes table.now l fields.from fields.width)) row.now)) out.old result out.new }
{
    let mut kept = [0; ROOM];
    import_kept(table, l, fields, row, &mut kept, out)
}

// The message of a row whose fields' numbers stand in the table.
pub fn import_row(
    table: &[u8],
    l: Layout,
    fields: Columns,
    row: &[u8],
    out: &mut [u8],
) -> Result<usize, NotRows>
    requires { Rowed table.now l fields.from fields.width }
    ensures { Gives (taken_output (length out.old) (taken_by (columns (field_shapes table.now l fields.from fields.width)) row.now)) out.old result out.new }
{
    if fields.width <= FEW && row.len() <= SHORT {
        return import_in::<SHORT>(table, l, fields, row, out);
    }
    import_in::<LONG>(table, l, fields, row, out)
}

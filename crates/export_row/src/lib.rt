// The row of a message in a lent output: one pass reads the message, measures the row and keeps it in a room of its own, from which it is
// copied; a second pass writes only what is longer than that room.
#![tactic(auto)]

ghost use Rattle.std.specs.Prelude.{true, ◌≤◌, length};
ghost use Rattle.columns.specs.Columns.{field_shapes, Rowed};
ghost use Rattle.put_row.specs.Rows.{fields_from};
ghost use Rattle.export_row.specs.Outputs.{Gives, told_output};

use columns::Columns;
use desk::NotRows;
use wire::{Layout, Refusal};

// The room for the row of few fields that are short, which is soon cleared, and of others.
const SHORT: usize = 256;

const LONG: usize = 8192;

const FEW: usize = 12;

// The row of a message whose fields' numbers stand in the table, kept in a room on its way.
fn export_kept(
    table: &[u8],
    l: Layout,
    fields: Columns,
    message: &[u8],
    kept: &mut [u8],
    out: &mut [u8],
) -> Result<usize, NotRows>
    requires { Rowed table.now l fields.from fields.width }
    ensures { Gives (told_output (length out.old) (fields_from message.now true (field_shapes table.now l fields.from fields.width) 0)) out.old result out.new }
{
    let laid = put_row::put_row(table, l, fields, message, kept)?;
    if out.len() < laid.len {
        return Err(NotRows::Refused {
            why: Refusal::Full,
            place: 0,
        });
    }
    if laid.len <= kept.len() {
        output::put_bytes(&kept[..laid.len], out, 0);
        return Ok(laid.len);
    }
    put_row::put_row(table, l, fields, message, out)?;
    Ok(laid.len)
}

// The same in a room of so many bytes.
fn export_in<const ROOM: usize>(
    table: &[u8],
    l: Layout,
    fields: Columns,
    message: &[u8],
    out: &mut [u8],
) -> Result<usize, NotRows>
    requires rows { Rowed table.now l fields.from fields.width }
    requires small { ROOM ≤ 8192 }
    ensures { Gives (told_output (length out.old) (fields_from message.now true (field_shapes table.now l fields.from fields.width) 0)) out.old result out.new }
{
    let mut kept = [0; ROOM];
    export_kept(table, l, fields, message, &mut kept, out)
}

// The row of a message whose fields' numbers stand in the table.
pub fn export_row(
    table: &[u8],
    l: Layout,
    fields: Columns,
    message: &[u8],
    out: &mut [u8],
) -> Result<usize, NotRows>
    requires { Rowed table.now l fields.from fields.width }
    ensures { Gives (told_output (length out.old) (fields_from message.now true (field_shapes table.now l fields.from fields.width) 0)) out.old result out.new }
{
    if fields.width <= FEW && message.len() <= SHORT {
        return export_in::<SHORT>(table, l, fields, message, out);
    }
    export_in::<LONG>(table, l, fields, message, out)
}

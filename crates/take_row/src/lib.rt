// The message of a CSV row, field by field: laid in a lent output where all of it has room, and counted in any case; or the first byte
// with which no row goes on.
#![tactic(auto)]

ghost use Rattle.std.specs.Prelude.{◌≤◌, length};
ghost use Rattle.desk.specs.Csv.{columns};
ghost use Rattle.columns.specs.Columns.{field_shapes, Rowed};
ghost use Rattle.take_row.specs.Messages.{taken_by, LaysMessage, Separated, Ended};

use columns::Columns;
use take_field::Took;
use take_number::{Stop, is_at};
use wire::Layout;

// The place where the next field begins: behind its comma, where it isn't the first.
fn start_of(first: bool, row: &[u8], at: usize) -> Result<usize, Stop>
    requires { at ≤ length row.now }
    ensures { Separated first row.now at result }
{
    if first {
        return Ok(at);
    }
    if is_at(row, at, b',') {
        return Ok(at + 1);
    }
    Err(Stop { at })
}

// The end of the row, and nothing more.
fn end_of(row: &[u8], at: usize) -> Result<(), Stop>
    requires { at ≤ length row.now }
    ensures { Ended row.now at result }
{
    if !is_at(row, at, b'\r') {
        return Err(Stop { at });
    }
    let next = at + 1;
    if !is_at(row, next, b'\n') {
        return Err(Stop { at: next });
    }
    let behind = next + 1;
    if behind < row.len() {
        return Err(Stop { at: behind });
    }
    Ok(())
}

// The length of the message of a row whose fields' numbers stand in the table.
pub fn take_row(
    table: &[u8],
    l: Layout,
    fields: Columns,
    row: &[u8],
    out: &mut [u8],
) -> Result<usize, Stop>
    requires { Rowed table.now l fields.from fields.width }
    ensures { LaysMessage (taken_by (columns (field_shapes table.now l fields.from fields.width)) row.now) 0 out.old result out.new }
{
    let mut taken = Took { at: 0, len: 0 };
    for i in 0..fields.width {
        let number = fields.kind(table, l, i);
        let start = start_of(i == 0, row, taken.at)?;
        taken = take_field::take_field(number, row, start, out, taken.len)?;
    }
    end_of(row, taken.at)?;
    Ok(taken.len)
}

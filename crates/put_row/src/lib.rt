// The row of a message, field by field as the message is read: laid in a lent output where all of it has room, and counted in any case.
#![tactic(auto)]

ghost use Rattle.std.specs.Prelude.{◌≡◌, true, ◌≤◌, length};
ghost use Rattle.wire.specs.Table.{kind_of};
ghost use Rattle.desk.specs.Csv.{line_end, style_of};
ghost use Rattle.columns.specs.Columns.{is_some, field_shapes, Rowed};
ghost use Rattle.put_number.specs.Lays.{Lays};
ghost use Rattle.put_row.specs.Rows.{separator, one_field, fields_from, LaysRow};

use columns::Columns;
use wire::{Layout, RefusedAt};

// A row that is laid so far: the place behind what was read of its message, and its length.
#[derive(Clone, Copy)]
pub struct Laid {
    pub place: usize,
    pub len: usize,
}

// The comma in front of a field that isn't the first.
fn put_between(first: bool, out: &mut [u8], used: usize) -> usize
    ensures { Lays (separator first) used out.old result out.new }
{
    if first {
        return used;
    }
    output::put_byte(b',', out, used)
}

// The end of the line.
fn put_end(out: &mut [u8], used: usize) -> usize
    ensures { Lays line_end used out.old result out.new }
{
    let next = output::put_byte(b'\r', out, used);
    output::put_byte(b'\n', out, next)
}

// The field of a kind that comes next, behind what is laid.
fn put_next(
    first: bool,
    number: u8,
    message: &[u8],
    laid: Laid,
    out: &mut [u8],
) -> Result<Laid, RefusedAt>
    requires place_in_bounds { laid.place ≤ length message.now }
    requires number_value { is_some (style_of (kind_of number)) ≡ true }
    ensures { LaysRow (one_field first message.now (kind_of number) laid.place) laid.len out.old result out.new }
{
    let place = laid.place;
    match leaf::take(number, &message[place..], place) {
        Err(why) => Err(RefusedAt { why, place }),
        Ok(own) => {
            let used = put_between(first, out, laid.len);
            let len = put_field::put_field(number, own.first, own.second, message, out, used);
            Ok(Laid {
                place: place + own.used,
                len,
            })
        }
    }
}

// The row of a message whose fields' numbers stand in the table.
pub fn put_row(
    table: &[u8],
    l: Layout,
    fields: Columns,
    message: &[u8],
    out: &mut [u8],
) -> Result<Laid, RefusedAt>
    requires { Rowed table.now l fields.from fields.width }
    ensures { LaysRow (fields_from message.now true (field_shapes table.now l fields.from fields.width) 0) 0 out.old result out.new }
{
    let mut laid = Laid { place: 0, len: 0 };
    for i in 0..fields.width {
        let number = fields.kind(table, l, i);
        laid = put_next(i == 0, number, message, laid, out)?;
    }
    let len = put_end(out, laid.len);
    Ok(Laid {
        place: laid.place,
        len,
    })
}

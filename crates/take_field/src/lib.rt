// One field of a CSV row, by its kind: its value as a message has it, laid behind the first `used` bytes of a lent output where it has
// room there, and the place behind the field; or the first byte with which no field goes on.
#![tactic(auto)]

ghost use Rattle.std.specs.Prelude.{◌≡◌, true, ◌≤◌, length};
ghost use Rattle.std.proofs.Math.Option.{some};
ghost use Rattle.wire.specs.Table.{kind_of};
ghost use Rattle.desk.specs.Csv.{numeral, style_of};
ghost use Rattle.put_field.specs.Fields.{Largest, IsNumber};
ghost use Rattle.columns.specs.Columns.{is_some};
ghost use Rattle.take_field.specs.Taking.{TakesKind, quoted_kind};

use take_number::Stop;

// A field that was taken: the place behind it, and the length of its form.
#[derive(Clone, Copy)]
pub struct Took {
    pub at: usize,
    pub len: usize,
}

// The size of a kind's smallest number, by its largest: only the signed kinds have numbers below zero.
fn smallest(number: u8, above: u64) -> u64
    requires number { IsNumber number }
    requires largest { Largest (kind_of number) above }
    ensures { style_of (kind_of number) ≡ some (numeral result above) }
{
    match number {
        1..=4 => above + 1,
        20..=22 => above + 1,
        26..=28 => above + 1,
        _ => 0,
    }
}

// A number.
fn take_plain(number: u8, row: &[u8], at: usize, out: &mut [u8], used: usize) -> Result<Took, Stop>
    requires number { IsNumber number }
    requires at_in_bounds { at ≤ length row.now }
    ensures { TakesKind (kind_of number) row.now at used out.old result out.new }
{
    let above = put_field::largest(number);
    let below = smallest(number, above);
    let got = take_number::take_number(below, above, row, at)?;
    let len = write_item::put_leaf(number, got.word, 0, row, out, used);
    Ok(Took { at: got.at, len })
}

// A text, or one char.
fn take_quoted(one: bool, row: &[u8], at: usize, out: &mut [u8], used: usize) -> Result<Took, Stop>
    requires { at ≤ length row.now }
    ensures { TakesKind (quoted_kind one) row.now at used out.old result out.new }
{
    let got = take_text::take_text(one, row, at)?;
    let content = &row[at + 1..got.at - 1];
    let len = put_content::put_text(content, got.len, out, used);
    Ok(Took { at: got.at, len })
}

// Bytes.
fn take_bytes(row: &[u8], at: usize, out: &mut [u8], used: usize) -> Result<Took, Stop>
    requires { at ≤ length row.now }
    ensures { TakesKind (kind_of 13) row.now at used out.old result out.new }
{
    let got = take_hex::take_hex(row, at)?;
    let content = &row[at + 1..got.at - 1];
    let len = put_content::put_bytes(content, got.len, out, used);
    Ok(Took { at: got.at, len })
}

// The field of a kind.
pub fn take_field(
    number: u8,
    row: &[u8],
    at: usize,
    out: &mut [u8],
    used: usize,
) -> Result<Took, Stop>
    requires number_value { is_some (style_of (kind_of number)) ≡ true }
    requires at_in_bounds { at ≤ length row.now }
    ensures { TakesKind (kind_of number) row.now at used out.old result out.new }
{
    match number {
        11 => take_quoted(true, row, at, out, used),
        12 => take_quoted(false, row, at, out, used),
        13 => take_bytes(row, at, out, used),
        _ => take_plain(number, row, at, out, used),
    }
}

// One field of a CSV row, by its kind: laid behind the first `used` bytes of a lent output where it has room there, and counted in any
// case. Its one spelling stands in desk's specs/Csv.antt.
#![tactic(auto)]

ghost use Rattle.std.specs.Prelude.{◌+◌, ◌≤◌, length};
ghost use Rattle.wire.specs.Table.{kind_of};
ghost use Rattle.wire.specs.Values.{content};
ghost use Rattle.wire.specs.Values.{part as part_of};
ghost use Rattle.texts.specs.Contents.{content_if};
ghost use Rattle.desk.specs.Csv.{style_of_content, spelled};
ghost use Rattle.put_number.specs.Lays.{Lays};
ghost use Rattle.put_field.specs.Fields.{field_of, Largest, LargestFixed, IsNumber, Spellable};

const LARGEST: u64 = 0xffff_ffff_ffff_ffff;

fn largest_signed(number: u8) -> u64
    requires { (1 ≤ number) × (number ≤ 4) }
    ensures { Largest (kind_of number) result }
{
    match number {
        1 => 0x7f,
        2 => 0x7fff,
        3 => 0x7fff_ffff,
        _ => 0x7fff_ffff_ffff_ffff,
    }
}

// The bits of floats are unsigned numbers.
fn largest_unsigned(number: u8) -> u64
    requires { (5 ≤ number) × (number ≤ 10) }
    ensures { Largest (kind_of number) result }
{
    match number {
        5 => 0xff,
        6 => 0xffff,
        7 => 0xffff_ffff,
        8 => LARGEST,
        9 => 0xffff_ffff,
        _ => LARGEST,
    }
}

// The k-th of the six fixed-size integers of either order.
fn largest_fixed(k: u8) -> u64
    requires { k ≤ 5 }
    ensures { LargestFixed k result }
{
    match k {
        0 => 0x7fff,
        1 => 0x7fff_ffff,
        2 => 0x7fff_ffff_ffff_ffff,
        3 => 0xffff,
        4 => 0xffff_ffff,
        _ => LARGEST,
    }
}

// The largest number of a kind.
pub fn largest(number: u8) -> u64
    requires { IsNumber number }
    ensures { Largest (kind_of number) result }
{
    match number {
        0 => 1,
        1..=4 => largest_signed(number),
        5..=10 => largest_unsigned(number),
        11..=25 => largest_fixed(number - 20),
        _ => largest_fixed(number - 26),
    }
}

// A text or bytes, which stand in the message.
fn put_part(
    text: bool,
    first: u64,
    second: u64,
    message: &[u8],
    out: &mut [u8],
    used: usize,
) -> usize
    requires { first + second ≤ length message.now }
    ensures { Lays (spelled (style_of_content (content_if text)) (content (part_of message.now first second))) used out.old result out.new }
{
    let start = first as usize;
    let end = start + second as usize;
    let part = &message[start..end];
    if text {
        return put_quoted::put_text(part, out, used);
    }
    put_quoted::put_hex(part, out, used)
}

// The field of a kind with its two words, which for a text or for bytes name a part of the message.
pub fn put_field(
    number: u8,
    first: u64,
    second: u64,
    message: &[u8],
    out: &mut [u8],
    used: usize,
) -> usize
    requires { Spellable number message.now first second }
    ensures { Lays (field_of (kind_of number) message.now first second) used out.old result out.new }
{
    match number {
        11 => put_quoted::put_char(first, out, used),
        12 => put_part(true, first, second, message, out, used),
        13 => put_part(false, first, second, message, out, used),
        _ => {
            let above = largest(number);
            put_number::put_word(above, first, out, used)
        }
    }
}

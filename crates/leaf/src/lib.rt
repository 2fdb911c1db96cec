// One leaf of any kind, from a part of the message that starts at its first byte.
#![tactic(auto)]

ghost use Rattle.std.specs.Prelude.{◌≡◌, ◌+◌, ◌≤◌, ◌<◌, ◌^◌, length};
ghost use Rattle.wire.specs.Shape as shapes;
ghost use Rattle.wire.specs.Numbers as numbers;
ghost use Rattle.wire.specs.Table.{kind_of};
ghost use Rattle.wire.specs.Reading.{flag, read_plain, head};
ghost use Rattle.laws.specs.KindRanges.{sixth};
ghost use Rattle.fixint.specs.Sizes.{order_of};
ghost use Rattle.leaf.specs.Leaves.{leaf_take_at, Within};

use wire::{Own, Refusal};

const LARGEST: usize = 0xffff_ffff_ffff_ffff;

// One byte that is 0 or 1, and why another is refused.
pub fn take_flag(part: &[u8], why: Refusal) -> Result<Own, Refusal>
    ensures { result ≡ flag why part.now }
{
    if part.is_empty() {
        return Err(Refusal::End);
    }
    let b = part[0] as u64;
    if b <= 1 {
        return Ok(Own {
            first: b,
            second: 0,
            used: 1,
            shortest: true,
        });
    }
    Err(why)
}

// The item whose zigzag form was taken.
pub fn unzigzag(got: Result<Own, Refusal>) -> Result<Own, Refusal>
    ensures { result ≡ numbers.on_first (numbers.unzigzagged shapes.signed) got }
{
    let Ok(own) = got else {
        return got;
    };
    Ok(Own {
        first: zigzag::unzigzag(own.first),
        ..own
    })
}

// The item whose offset, counted from `place`, was taken.
fn at_place(got: Result<Own, Refusal>, place: usize) -> Result<Own, Refusal>
    requires { Within place got }
    ensures { result ≡ numbers.on_first (λ a. place + a) got }
{
    let Ok(own) = got else {
        return got;
    };
    Ok(Own {
        first: place as u64 + own.first,
        ..own
    })
}

// i8 to i64. The largest width names its constants, since its loop is inlined only so.
fn signed(kind: u8, part: &[u8]) -> Result<Own, Refusal>
    requires { (1 ≤ kind) × (kind ≤ 4) }
    ensures { result ≡ head (kind_of kind) 0 0 part.now }
{
    match kind {
        1 => fixint::take8(part, true),
        2 => unzigzag(varint::take_u16(part)),
        3 => unzigzag(varint::take_u32(part)),
        _ => unzigzag(varint::take::<varint::U64>(part)),
    }
}

// u8 to u64, likewise.
fn unsigned(kind: u8, part: &[u8]) -> Result<Own, Refusal>
    requires { (5 ≤ kind) × (kind ≤ 8) }
    ensures { result ≡ head (kind_of kind) 0 0 part.now }
{
    match kind {
        5 => fixint::take8(part, false),
        6 => varint::take_u16(part),
        7 => varint::take_u32(part),
        _ => varint::take::<varint::U64>(part),
    }
}

// f32 and f64.
fn float(kind: u8, part: &[u8]) -> Result<Own, Refusal>
    requires { (9 ≤ kind) × (kind ≤ 10) }
    ensures { result ≡ head (kind_of kind) 0 0 part.now }
{
    match kind {
        9 => fixint::take32(part, false, false),
        _ => fixint::take64(part, false, false),
    }
}

// A char, a text, bytes or a unit.
fn text(kind: u8, part: &[u8], place: usize) -> Result<Own, Refusal>
    requires { (11 ≤ kind) × (kind ≤ 14) × (place + length part.now < 2 ^ 64) }
    ensures { result ≡ head (kind_of kind) 0 place part.now }
{
    match kind {
        11 => texts::take_char(part),
        14 => Ok(Own {
            first: 0,
            second: 0,
            used: 0,
            shortest: true,
        }),
        _ => at_place(texts::take_content(part, kind == 12), place),
    }
}

// The k-th of the six fixed-size integers of an order.
fn fixed(k: u8, part: &[u8], big: bool) -> Result<Own, Refusal>
    ensures { result ≡ read_plain (sixth (order_of big) k) part.now }
{
    match k {
        0 => fixint::take16(part, true, big),
        1 => fixint::take32(part, true, big),
        2 => fixint::take64(part, true, big),
        3 => fixint::take16(part, false, big),
        4 => fixint::take32(part, false, big),
        _ => fixint::take64(part, false, big),
    }
}

// The kinds from 9 on, whose functions stay calls.
fn others(kind: u8, part: &[u8], place: usize) -> Result<Own, Refusal>
    requires { (9 ≤ kind) × (place + length part.now < 2 ^ 64) }
    ensures { result ≡ leaf_take_at kind place part.now }
{
    match kind {
        9..=10 => float(kind, part),
        11..=14 => text(kind, part, place),
        20..=25 => fixed(kind - 20, part, false),
        26..=31 => fixed(kind - 26, part, true),
        _ => Err(Refusal::Record),
    }
}

// The leaf of a kind whose first byte stands at `place` of the message. A kind that is no leaf's is refused as a bad
// record, and a part that reaches beyond the last place that a word holds as ended.
pub fn take(kind: u8, part: &[u8], place: usize) -> Result<Own, Refusal>
    ensures { result ≡ leaf_take_at kind place part.now }
{
    if LARGEST - place < part.len() {
        return Err(Refusal::End);
    }
    match kind {
        0 => take_flag(part, Refusal::BadBool),
        1..=4 => signed(kind, part),
        5..=8 => unsigned(kind, part),
        // taken apart and made anew, so that it meets the items of the other arms in registers
        _ => Ok(others(kind, part, place)?),
    }
}

// Fixed-size numbers: one, two, four or eight bytes, little-endian, or reversed for big-endian.
#![tactic(auto)]

ghost use Rattle.std.specs.Prelude.{◌≡◌, ◌*◌, ◌^◌, ◌<◌, ◌≤◌, length};
ghost use Rattle.wire.specs.Shape.{w16, w32, w64, fixed};
ghost use Rattle.wire.specs.Numbers.{little, little_bytes, in_order};
ghost use Rattle.wire.specs.Numbers as numbers;
ghost use Rattle.wire.specs.Reading.{read_plain};
ghost use Rattle.fixint.specs.Sizes.{order_of, sign_of, byte_of, IsSize, number_of};

use wire::{Own, Refusal};

// The lowest N bytes of a word, and zeros where it has no more, the lowest first; for big-endian they are reversed.
pub fn bytes<const N: usize>(x: u64, big: bool) -> [u8; N]
    ensures { result ≡ in_order (order_of big) (little_bytes N x) }
{
    let few = N.min(8);
    let mut bytes = [0; N];
    bytes[..few].copy_from_slice(&x.to_le_bytes()[..few]);
    if big {
        bytes.reverse();
    }
    bytes
}

// The number that N bytes are, with zeros for the bytes that a word has besides.
fn number<const N: usize>(part: &[u8], big: bool) -> u64
    requires { (length part.now ≡ N) × (N ≤ 8) }
    ensures { result ≡ little (in_order (order_of big) part.now) }
{
    let mut bytes = [0; 8];
    if big {
        bytes[8 - N..].copy_from_slice(part);
        u64::from_be_bytes(bytes)
    } else {
        bytes[..N].copy_from_slice(part);
        u64::from_le_bytes(bytes)
    }
}

// The word of a number of N bytes.
fn with_sign<const N: usize>(x: u64, signed: bool) -> u64
    requires { (IsSize N) × (x < 256 ^ N) }
    ensures { result ≡ numbers.word (sign_of signed) (8 * N) x }
{
    if signed {
        zigzag::extend(8 * N as u64, x)
    } else {
        x
    }
}

// A number of N bytes at the start of the part.
fn take<const N: usize>(part: &[u8], signed: bool, big: bool) -> Result<Own, Refusal>
    requires { IsSize N }
    ensures { result ≡ number_of N (sign_of signed) (order_of big) part.now }
{
    if part.len() < N {
        return Err(Refusal::End);
    }
    let x = number::<N>(&part[..N], big);
    let first = with_sign::<N>(x, signed);
    Ok(Own {
        first,
        second: 0,
        used: N,
        shortest: true,
    })
}

pub fn take8(part: &[u8], signed: bool) -> Result<Own, Refusal>
    ensures { result ≡ read_plain (byte_of signed) part.now }
{
    take::<1>(part, signed, false)
}

pub fn take16(part: &[u8], signed: bool, big: bool) -> Result<Own, Refusal>
    ensures { result ≡ read_plain (fixed (order_of big) (sign_of signed) w16) part.now }
{
    take::<2>(part, signed, big)
}

// An f32 is the unsigned little-endian number of its bits, and so is an f64 below (specs/Sizes.antt, `Floats`).
pub fn take32(part: &[u8], signed: bool, big: bool) -> Result<Own, Refusal>
    ensures { result ≡ read_plain (fixed (order_of big) (sign_of signed) w32) part.now }
{
    take::<4>(part, signed, big)
}

pub fn take64(part: &[u8], signed: bool, big: bool) -> Result<Own, Refusal>
    ensures { result ≡ read_plain (fixed (order_of big) (sign_of signed) w64) part.now }
{
    take::<8>(part, signed, big)
}

// Varints of three widths: low seven bits first, high bit set if more follow.
#![tactic(auto)]

ghost use Rattle.std.specs.Prelude.{◌≡◌, ℕ, ◌+◌, length, set};
ghost use Rattle.wire.specs.Shape.{w16, w32};
ghost use Rattle.wire.specs.Numbers.{varint, shortest};
ghost use Rattle.varint.specs.Takes.{limit_of, takes, spelled_by};
ghost use Rattle.varint.specs.Put.{Put};

use wire::{Own, Refusal};

// What a width allows: the most bytes, and the largest byte that may stand last in so many.
pub trait Width {
    const MOST: usize;

    const LAST: u64;

    ghost MOST: { ℕ };

    ghost LAST: { ℕ };
}

#[derive(Clone, Copy)]
pub struct U16;

#[derive(Clone, Copy)]
pub struct U32;

#[derive(Clone, Copy)]
pub struct U64;

impl Width for U16 {
    const MOST: usize = 3;

    const LAST: u64 = 3;

    ghost MOST = { 3 };

    ghost LAST = { 3 };
}

impl Width for U32 {
    const MOST: usize = 5;

    const LAST: u64 = 15;

    ghost MOST = { 5 };

    ghost LAST = { 15 };
}

impl Width for U64 {
    const MOST: usize = 10;

    const LAST: u64 = 1;

    ghost MOST = { 10 };

    ghost LAST = { 1 };
}

// What the last of `most` bytes must be below for every value to fit a word.
fn limit(most: usize) -> u64
    ensures { result ≡ limit_of most }
{
    match most {
        1..=9 => 128,
        10 => 2,
        _ => 0,
    }
}

// A number in so many bytes, of which `b` is the last: the shortest of its forms is one byte, or ends in one that is not 0.
fn ended(first: u64, used: usize, b: u64) -> Own
    ensures { result ≡ spelled_by first used b }
{
    Own {
        first,
        second: 0,
        used,
        shortest: used == 1 || 0 < b,
    }
}

// A varint of at most `most` bytes at the start of `part`, of which the last allowed is at most `last`. It is inlined, so that at
// a width's constants the compiler folds the tests.
#[inline(always)]
pub fn take_by(part: &[u8], most: usize, last: u64) -> Result<Own, Refusal>
    ensures { result ≡ takes most last part.now }
{
    if limit(most) <= last {
        return Err(Refusal::BadVarint);
    }
    let mut value: u64 = 0;
    let mut scale: u64 = 1;
    for (i, byte) in part.iter().enumerate() {
        let b = *byte as u64;
        let used = i + 1;
        if used == most {
            if last < b {
                return Err(Refusal::BadVarint);
            }
            return Ok(ended(value + scale * b, used, b));
        }
        value += scale * (b % 128);
        if b < 128 {
            return Ok(ended(value, used, b));
        }
        scale *= 128;
    }
    Err(Refusal::End)
}

// A varint of a width.
#[inline(always)]
pub fn take<W: Width>(part: &[u8]) -> Result<Own, Refusal>
    ensures { result ≡ takes W.MOST W.LAST part.now }
{
    take_by(part, W::MOST, W::LAST)
}

pub fn take_u16(part: &[u8]) -> Result<Own, Refusal>
    ensures { result ≡ varint w16 part.now }
{
    take::<U16>(part)
}

pub fn take_u32(part: &[u8]) -> Result<Own, Refusal>
    ensures { result ≡ varint w32 part.now }
{
    take::<U32>(part)
}

// Stores a byte at the n-th place behind `at`, if `out` has that place.
fn put_byte(out: &mut [u8], at: usize, n: usize, b: u8)
    ensures { out.new ≡ set out.old (at + n) b }
{
    if at < out.len() && n < out.len() - at {
        out[at + n] = b;
    }
}

// Stores the shortest form of `x` in `out` from `at` on, as far as `out` has places, and returns its size.
pub fn put(out: &mut [u8], at: usize, x: u64) -> usize
    ensures { Put out.old at x out.new result }
{
    let mut n: usize = 0;
    let mut rest = x;
    while 128 <= rest {
        let b = (rest % 128 + 128) as u8;
        put_byte(out, at, n, b);
        rest = rest / 128;
        n = n + 1;
    }
    let b = rest as u8;
    put_byte(out, at, n, b);
    n + 1
}

// How many bytes the shortest form of `x` has: seven bits each, with no loop, since a writer asks this of every number first.
pub fn size(x: u64) -> usize
    ensures { result ≡ length (shortest x) }
{
    if x < 0x80 {
        return 1;
    }
    if x < 0x4000 {
        return 2;
    }
    if x < 0x20_0000 {
        return 3;
    }
    if x < 0x1000_0000 {
        return 4;
    }
    if x < 0x8_0000_0000 {
        return 5;
    }
    if x < 0x400_0000_0000 {
        return 6;
    }
    if x < 0x2_0000_0000_0000 {
        return 7;
    }
    if x < 0x100_0000_0000_0000 {
        return 8;
    }
    if x < 0x8000_0000_0000_0000 {
        return 9;
    }
    10
}

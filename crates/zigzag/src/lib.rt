// Signed numbers as words, x as x and 2^64 + x below zero: their zigzag form, which is the same at every width, and
// the words of 8, 16, 32 and 64 bits.
#![tactic(auto)]

ghost use Rattle.std.specs.Prelude.{◌≡◌, ◌-◌, ◌^◌};
ghost use Rattle.wire.specs.Numbers as numbers;
ghost use Rattle.zigzag.specs.Widths.{width_of, extended};

const LARGEST: u64 = 0xffff_ffff_ffff_ffff;

const HALF: u64 = 0x8000_0000_0000_0000;

// 2x for x at least 0, and -2x - 1 below.
pub fn zigzag(a: u64) -> u64
    ensures { result ≡ numbers.zigzag a }
{
    if a < HALF {
        return 2 * a;
    }
    2 * (LARGEST - a) + 1
}

pub fn unzigzag(z: u64) -> u64
    ensures { result ≡ numbers.unzigzag z }
{
    if z % 2 == 0 {
        return z / 2;
    }
    LARGEST - z / 2
}

// Half of how many numbers a width has. A number of bits that is no width stands for 64.
fn half_of(bits: u64) -> u64
    ensures { result ≡ 2 ^ (width_of bits - 1) }
{
    match bits {
        8 => 0x80,
        16 => 0x8000,
        32 => 0x8000_0000,
        _ => HALF,
    }
}

// The word of the signed number that the low bits of `x` are.
pub fn extend(bits: u64, x: u64) -> u64
    ensures { result ≡ extended bits x }
{
    let half = half_of(bits);
    let low = x % half;
    if x / half % 2 == 0 {
        return low;
    }
    LARGEST - (half - 1) + low
}

// Whether a word stands for a signed number of so many bits.
pub fn is_signed(bits: u64, a: u64) -> bool
    ensures { result ≡ numbers.is_signed_word (width_of bits) a }
{
    let half = half_of(bits);
    if a < half {
        return true;
    }
    LARGEST - half < a
}

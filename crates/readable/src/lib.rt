// How a value is spelled for a reader: a byte in hex, a byte of a text between quotes, a signed number by its sign and size.
#![tactic(auto)]

ghost use Rattle.std.specs.Prelude.{◌≡◌, [], ◌∷◌, ◌<◌, length, leb};
ghost use Rattle.desk.specs.Csv.{digit_of, hex_of};
ghost use Rattle.readable.specs.Spelling.{escape, padded, size_of, half};

const HALF: u64 = 0x8000_0000_0000_0000;

const LARGEST: u64 = 0xffff_ffff_ffff_ffff;

// A hexadecimal digit, in lower case.
fn digit(x: u8) -> u8
    requires { x < 16 }
    ensures { result ≡ digit_of x }
{
    if x < 10 {
        return b'0' + x;
    }
    b'a' + (x - 10)
}

// A byte's two hexadecimal digits.
pub fn hex(b: u8) -> [u8; 2]
    ensures { result ≡ hex_of b }
{
    let high = digit(b / 16);
    let low = digit(b % 16);
    [high, low]
}

// Up to four bytes: the first `len`, and zeros behind.
#[derive(Clone, Copy)]
pub struct Spelled {
    pub bytes: [u8; 4],
    pub len: usize,
}

// A backslash and a letter or a sign.
fn after_backslash(sign: u8) -> Spelled
    ensures { (result.bytes ≡ padded (92 ∷ sign ∷ [])) × (result.len ≡ 2) }
{
    Spelled {
        bytes: [b'\\', sign, 0, 0],
        len: 2,
    }
}

// A byte that is no sign of its own, by its number.
fn by_number(b: u8) -> Spelled
    ensures { (result.bytes ≡ padded (92 ∷ 120 ∷ hex_of b)) × (result.len ≡ 4) }
{
    let high = digit(b / 16);
    let low = digit(b % 16);
    Spelled {
        bytes: [b'\\', b'x', high, low],
        len: 4,
    }
}

// A byte of a text as it stands between quotes.
pub fn escaped(b: u8) -> Spelled
    ensures { (result.bytes ≡ padded (escape b)) × (result.len ≡ length (escape b)) }
{
    match b {
        b'"' => after_backslash(b'"'),
        b'\\' => after_backslash(b'\\'),
        b'\n' => after_backslash(b'n'),
        b'\r' => after_backslash(b'r'),
        b'\t' => after_backslash(b't'),
        0..=31 => by_number(b),
        127 => by_number(b),
        _ => Spelled {
            bytes: [b, 0, 0, 0],
            len: 1,
        },
    }
}

// Whether a word stands for a number below zero.
pub fn is_negative(word: u64) -> bool
    ensures { result ≡ leb half word }
{
    HALF <= word
}

// The size of the signed number that a word stands for, without its sign.
pub fn size(word: u64) -> u64
    ensures { result ≡ size_of word }
{
    if word < HALF {
        return word;
    }
    LARGEST - word + 1
}

// The form of a list: a field for each record, and in it a field for each of the record's parts.
// specs/Fields.antt says what a field is.
ghost use Rattle.std.specs.Prelude.{◌≡◌};
ghost use Rattle.recorded.specs.Fields.{number_of, Ends, first_of, behind_of, part_of, is_whole};

// Another byte fits behind a number up to this one.
const MOST: u64 = 72057594037927935;

// The number that bytes stand for, the high ones first; as many of them as fit.
pub fn number(bytes: &[u8]) -> u64
    ensures { result ≡ number_of bytes.now }
{
    let mut value: u64 = 0;
    for byte in bytes {
        if MOST < value {
            return value;
        }
        value = value * 256 + u64::from(*byte);
    }
    value
}

// Where the first field ends; 0 if no whole one is there.
pub fn end_of(bytes: &[u8]) -> usize
    ensures { Ends bytes.now result }
{
    let all = bytes.len();
    if all < 2 {
        return 0;
    }
    let size = number(&bytes[..2]) as usize;
    if all - 2 < size {
        return 0;
    }
    2 + size
}

// What the first field holds; nothing if no whole one is there.
fn first(bytes: &[u8]) -> &[u8]
    ensures { result.now ≡ first_of bytes.now }
{
    let end = end_of(bytes);
    if end < 2 {
        return &bytes[..0];
    }
    &bytes[2..end]
}

// What is behind the first field; all if no whole one is there.
fn behind(bytes: &[u8]) -> &[u8]
    ensures { result.now ≡ behind_of bytes.now }
{
    let end = end_of(bytes);
    &bytes[end..]
}

// What a field holds, by its number from 0; nothing if it isn't there.
pub fn part(bytes: &[u8], which: usize) -> &[u8]
    ensures { result.now ≡ part_of which bytes.now }
{
    let mut rest = bytes;
    for _ in 0..which {
        rest = behind(rest);
    }
    first(rest)
}

pub fn number_at(bytes: &[u8], which: usize) -> u64
    ensures { result ≡ number_of (part_of which bytes.now) }
{
    number(part(bytes, which))
}

// Whether the bytes are so many fields and nothing else.
pub fn is_whole(bytes: &[u8], fields: usize) -> bool
    ensures { result ≡ is_whole fields bytes.now }
{
    let mut rest = bytes;
    for _ in 0..fields {
        if end_of(rest) == 0 {
            return false;
        }
        rest = behind(rest);
    }
    rest.is_empty()
}

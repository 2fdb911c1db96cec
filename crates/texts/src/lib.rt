// The items that hold text: a char, a text, and bytes, each behind a count.
#![tactic(auto)]

ghost use Rattle.std.specs.Prelude.{◌≡◌, ◌+◌, ◌<◌, ◌^◌, length};
ghost use Rattle.wire.specs.Text.{char_bytes};
ghost use Rattle.wire.specs.Shape.{char, pooled};
ghost use Rattle.wire.specs.Reading.{char_of, is_content, content_of, read_plain, head};
ghost use Rattle.texts.specs.Contents.{content_if};

use wire::{Own, Refusal};

// How many bytes a char has.
fn char_size(c: u64) -> usize
    ensures { result ≡ length (char_bytes c) }
{
    if c < 0x80 {
        return 1;
    }
    if c < 0x800 {
        return 2;
    }
    if c < 0x10000 {
        return 3;
    }
    4
}

// A char behind the count of its bytes.
fn char_of(part: &[u8], count: Own) -> Result<Own, Refusal>
    requires { count.used + length part.now < 2 ^ 64 }
    ensures { result ≡ char_of count part.now }
{
    if 4 < count.first {
        return Err(Refusal::BadChar);
    }
    let n = count.first as usize;
    if part.len() < n {
        return Err(Refusal::End);
    }
    if n == 0 {
        return Err(Refusal::BadChar);
    }
    let bytes = &part[..n];
    if !utf8::is_text(bytes) {
        return Err(Refusal::BadChar);
    }
    let first = utf8::first_char(bytes);
    Ok(Own {
        first,
        second: 0,
        used: count.used + n,
        shortest: count.shortest && n == char_size(first),
    })
}

// The char at the start of `part`.
pub fn take_char(part: &[u8]) -> Result<Own, Refusal>
    ensures { result ≡ read_plain char part.now }
{
    let got = varint::take::<varint::U64>(part);
    let Ok(count) = got else {
        return got;
    };
    char_of(&part[count.used..], count)
}

// Whether bytes may be a content: a text must be UTF-8, and anything else may be any bytes.
pub fn is_content(part: &[u8], text: bool) -> bool
    ensures { result ≡ is_content (content_if text) part.now }
{
    !text || utf8::is_text(part)
}

// A text or bytes behind their count. The offset is counted from the count's first byte.
fn content_of(part: &[u8], count: Own, text: bool) -> Result<Own, Refusal>
    requires { count.used + length part.now < 2 ^ 64 }
    ensures { result ≡ content_of (content_if text) 0 count part.now }
{
    if (part.len() as u64) < count.first {
        return Err(Refusal::End);
    }
    let n = count.first as usize;
    if !is_content(&part[..n], text) {
        return Err(Refusal::BadUtf8);
    }
    Ok(Own {
        first: count.used as u64,
        second: count.first,
        used: count.used + n,
        shortest: count.shortest,
    })
}

// The text, or the bytes, at the start of `part`, from which the offset is counted.
pub fn take_content(part: &[u8], text: bool) -> Result<Own, Refusal>
    ensures { result ≡ head (pooled (content_if text)) 0 0 part.now }
{
    let got = varint::take::<varint::U64>(part);
    let Ok(count) = got else {
        return got;
    };
    content_of(&part[count.used..], count, text)
}

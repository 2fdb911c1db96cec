// What the programs say, as values that print themselves: bytes, counts, signed numbers, entries and refusals.
#![tactic(auto)]

ghost use Rattle.std.specs.Prelude.{◌≡◌, take};

use std::fmt;
use wire::Refusal;

// Bytes in hex, with a space before each; or that there are none.
#[derive(Clone, Copy)]
pub struct Hex<'a>(pub &'a [u8]);

impl<'a> fmt::Display for Hex<'a> {
    fn fmt<W: fmt::Write>(&self, f: &mut fmt::Formatter<W>) -> fmt::Result {
        if self.0.is_empty() {
            return write!(f, " none");
        }
        for byte in self.0 {
            let [high, low] = readable::hex(*byte);
            f.write_char(' ')?;
            f.write_char(high as char)?;
            f.write_char(low as char)?;
        }
        Ok(())
    }
}

// So many of a thing, whose name gets an s unless there is one.
#[derive(Clone, Copy)]
pub struct Count<'a>(pub u64, pub &'a str);

impl<'a> fmt::Display for Count<'a> {
    fn fmt<W: fmt::Write>(&self, f: &mut fmt::Formatter<W>) -> fmt::Result {
        let Count(n, thing) = *self;
        if n == 1 {
            return write!(f, "1 {thing}");
        }
        write!(f, "{n} {thing}s")
    }
}

// The signed number that a word stands for.
#[derive(Clone, Copy)]
pub struct Signed(pub u64);

impl fmt::Display for Signed {
    fn fmt<W: fmt::Write>(&self, f: &mut fmt::Formatter<W>) -> fmt::Result {
        if readable::is_negative(self.0) {
            write!(f, "-")?;
        }
        let size = readable::size(self.0);
        write!(f, "{size}")
    }
}

// The words of a store's entries, each entry between brackets.
#[derive(Clone, Copy)]
pub struct Entries<'a>(pub &'a [u64]);

impl<'a> fmt::Display for Entries<'a> {
    #[tactic(auto, unfolding(wire::specs::Answers::room_of))]
    fn fmt<W: fmt::Write>(&self, f: &mut fmt::Formatter<W>) -> fmt::Result {
        let store = self.0;
        for i in 0..entry::room(store.len()) {
            let first = entry::first(store, i);
            let second = entry::second(store, i);
            let place = entry::place(store, i);
            write!(f, " ({first}, {second}, {place})")?;
        }
        Ok(())
    }
}

// A refusal by its number and in words.
#[derive(Clone, Copy)]
pub struct Why(pub Refusal);

impl fmt::Display for Why {
    fn fmt<W: fmt::Write>(&self, f: &mut fmt::Formatter<W>) -> fmt::Result {
        let words = match self.0 {
            Refusal::Trailer => "the trailer is not good",
            Refusal::Record => "a record is not good",
            Refusal::End => "the message ends inside an item",
            Refusal::BadVarint => "bad varint",
            Refusal::BadBool => "bad bool",
            Refusal::BadChar => "bad char",
            Refusal::BadUtf8 => "bad UTF-8",
            Refusal::BadOption => "bad option",
            Refusal::Variant => "the table has no such variant",
            Refusal::Room => "no room for this item's entry",
            Refusal::Values => "the value list does not fit",
            Refusal::Full => "the output is full",
            Refusal::NotShortest => "not in its shortest form",
        };
        let number = numbers::refusal(self.0);
        write!(f, "{number}, {words}")
    }
}

// Two spaces for each level.
#[derive(Clone, Copy)]
pub struct Indent(pub usize);

impl fmt::Display for Indent {
    fn fmt<W: fmt::Write>(&self, f: &mut fmt::Formatter<W>) -> fmt::Result {
        for _ in 0..self.0 {
            write!(f, "  ")?;
        }
        Ok(())
    }
}

// The first n bytes, or all if there are fewer.
pub fn front(bytes: &[u8], n: usize) -> &[u8]
    ensures { result.now ≡ take n bytes.now }
{
    if n <= bytes.len() {
        return &bytes[..n];
    }
    bytes
}

// A value in its kind's own form, with a space in front if it has one.
use crate::names::{Form, Kind};
use say::{Count, Hex, Signed, front};
use std::io;

// A value as an entry has it, of a kind with so many children: its two words, and the message that they may name a part of.
#[derive(Clone, Copy)]
pub struct Value<'a> {
    pub kind: Kind,
    pub width: usize,
    pub first: u64,
    pub second: u64,
    pub message: &'a [u8],
}

fn say_quoted(rt: &impl Print, text: &[u8]) -> io::Result<()> {
    print!(rt; " \"")?;
    for byte in text {
        let spelled = readable::escaped(*byte);
        rt.write_all(front(&spelled.bytes, spelled.len))?;
    }
    print!(rt; "\"")
}

// A message's bytes from an offset on, if there are so many.
fn content(message: &[u8], offset: u64, len: u64) -> Option<&[u8]> {
    let behind = message.get(offset as usize..)?;
    behind.get(..len as usize)
}

// A leaf's value behind its kind.
fn say_leaf(rt: &impl Print, value: Value) -> io::Result<()> {
    let word = value.first;
    match value.kind.0 {
        0 => print!(rt; " {}", word != 0),
        1..=4 | 20..=22 | 26..=28 => print!(rt; " {}", Signed(word)),
        9 => print!(rt; " bits {word:08x}"),
        10 => print!(rt; " bits {word:016x}"),
        11 => {
            let form = utf8::char_bytes(word);
            say_quoted(rt, front(&form.bytes, form.len))
        }
        12 | 13 => {
            let Some(part) = content(value.message, word, value.second) else {
                return Ok(());
            };
            if value.kind.0 == 12 {
                return say_quoted(rt, part);
            }
            print!(rt; "{}", Hex(part))
        }
        14 => Ok(()),
        _ => print!(rt; " {word}"),
    }
}

// A value behind its kind.
pub fn say_value(rt: &impl Print, value: Value) -> io::Result<()> {
    let word = value.first;
    match Form::from(value.kind) {
        Form::Option if word == 0 => print!(rt; " absent"),
        Form::Option => print!(rt; " present"),
        Form::Sequence => print!(rt; " of {}", Count(word, "element")),
        Form::Map => print!(rt; " of {}", Count(word, "pair")),
        Form::Struct => print!(rt; " of {}", Count(value.width as u64, "field")),
        Form::Enum => print!(rt; ", variant {word}"),
        Form::Leaf => say_leaf(rt, value),
    }
}

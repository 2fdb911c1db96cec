// Bytes of a CSV row in hexadecimal, from their quote on: how many they are and the place behind their closing quote, or the first byte
// with which none go on.
#![tactic(auto)]

ghost use Rattle.std.specs.Prelude.{◌≡◌, false, ◌≤◌, length};
ghost use Rattle.take_hex.specs.Pairs.{is_hex, hex_at, before, even, Answers};

use take_number::Stop;
use take_text::Quoted;

const QUOTE: u8 = b'"';

// A hexadecimal digit, in lower case.
fn is_digit(b: u8) -> bool
    ensures { result ≡ is_hex b }
{
    match b {
        48..=57 => true,
        97..=102 => true,
        _ => false,
    }
}

// Whether such a digit stands at a place.
fn is_hex(row: &[u8], at: usize) -> bool
    ensures { result ≡ hex_at row.now at }
{
    at < row.len() && is_digit(row[at])
}

// What stands behind so many bytes, where no digit does.
fn close(row: &[u8], at: usize, len: usize) -> Result<Quoted, Stop>
    requires at_in_bounds { at ≤ length row.now }
    requires at_value { hex_at row.now at ≡ false }
    ensures { Answers (even len) row.now at result }
{
    if take_number::is_at(row, at, QUOTE) {
        return Ok(Quoted { len, at: at + 1 });
    }
    Err(Stop { at })
}

// All digits behind the first quote.
fn inside(row: &[u8], from: usize) -> Result<Quoted, Stop>
    requires { from ≤ length row.now }
    ensures { Answers (even 0) row.now from result }
{
    let mut at = from;
    let mut len: usize = 0;
    while at < row.len() {
        if !is_hex(row, at) {
            return close(row, at, len);
        }
        let next = at + 1;
        if !is_hex(row, next) {
            return Err(Stop { at: next });
        }
        at = next + 1;
        len = len + 1;
    }
    Err(Stop { at })
}

// Bytes in hexadecimal.
pub fn take_hex(row: &[u8], at: usize) -> Result<Quoted, Stop>
    requires { at ≤ length row.now }
    ensures { Answers before row.now at result }
{
    if take_number::is_at(row, at, QUOTE) {
        return inside(row, at + 1);
    }
    Err(Stop { at })
}

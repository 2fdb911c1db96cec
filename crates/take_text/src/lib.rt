// A text or a char of a CSV row, from its quote on: how many bytes it has and the place behind its closing quote, or the first byte
// with which none goes on.
#![tactic(auto)]

ghost use Rattle.std.specs.Prelude.{◌≡◌, true, ◌<◌, ◌≤◌, length};
ghost use Rattle.wire.specs.Tests.{both};
ghost use Rattle.wire.specs.Text.{width_of, low_of, high_of};
ghost use Rattle.take_text.specs.Marks.{before, within, behind, may_go_on, is_whole, is_quote, behind_run, Answers, Turns, AtQuote, PassesPlain};

use take_number::Stop;

const QUOTE: u8 = b'"';

// How many bytes stand between quotes, and the place behind the closing one.
#[derive(Clone, Copy)]
pub struct Quoted {
    pub len: usize,
    pub at: usize,
}

// How many bytes of a char are still open, and the range of the next.
#[derive(Clone, Copy)]
pub struct Open {
    pub more: u8,
    pub low: u8,
    pub high: u8,
}

// A place to go on from, and what of a char is open there.
#[derive(Clone, Copy)]
pub struct Step {
    pub at: usize,
    pub rest: Open,
}

// No char has begun.
const NONE: Open = Open {
    more: 0,
    low: 0,
    high: 0,
};

// ---- bytes

// How many bytes a char has that starts with a byte, 0 where none does.
fn width(b: u8) -> u8
    ensures { result ≡ width_of b }
{
    match b {
        0..=0x7f => 1,
        0xc2..=0xdf => 2,
        0xe0..=0xef => 3,
        0xf0..=0xf4 => 4,
        _ => 0,
    }
}

// The range of the byte behind it.
fn low_of(b: u8) -> u8
    ensures { result ≡ low_of b }
{
    match b {
        0xe0 => 0xa0,
        0xf0 => 0x90,
        _ => 0x80,
    }
}

fn high_of(b: u8) -> u8
    ensures { result ≡ high_of b }
{
    match b {
        0xed => 0x9f,
        0xf4 => 0x8f,
        _ => 0xbf,
    }
}

// ---- between quotes

// Whether a further char may follow so many bytes: in a text always, in a char only in front.
fn may_go_on(one: bool, len: usize) -> bool
    ensures { result ≡ may_go_on one len }
{
    !one || len == 0
}

// Whether a second quote makes one byte more behind so many.
fn goes_on(one: bool, len: usize, row: &[u8], at: usize) -> bool
    ensures { result ≡ both (is_quote row.now at) (may_go_on one len) }
{
    take_number::is_at(row, at, QUOTE) && may_go_on(one, len)
}

// Whether so many bytes between quotes are whole: of a char at least one.
fn is_whole(one: bool, len: usize) -> bool
    ensures { result ≡ is_whole one (behind len) }
{
    !one || 0 < len
}

// A quote behind so many bytes: the first of two, or the closing one.
fn at_quote(one: bool, len: usize, row: &[u8], at: usize) -> Result<Option<Step>, Stop>
    requires { is_quote row.now at ≡ true }
    ensures { AtQuote one len row.now at result }
{
    let next = at + 1;
    if goes_on(one, len, row, next) {
        return Ok(Some(Step {
            at: next + 1,
            rest: NONE,
        }));
    }
    if is_whole(one, len) {
        return Ok(None);
    }
    Err(Stop { at: next })
}

// The next byte of a text behind so many, unless it is the closing quote.
fn next_byte(one: bool, len: usize, open: Open, row: &[u8], at: usize) -> Result<Option<Step>, Stop>
    requires { at < length row.now }
    ensures { Turns one len open.more open.low open.high row.now at result }
{
    let b = row[at];
    if 0 < open.more {
        if b < open.low || open.high < b {
            return Err(Stop { at });
        }
        let rest = Open {
            more: open.more - 1,
            low: 0x80,
            high: 0xbf,
        };
        return Ok(Some(Step { at: at + 1, rest }));
    }
    if b == QUOTE {
        return at_quote(one, len, row, at);
    }
    let w = width(b);
    if w < 1 || !may_go_on(one, len) {
        return Err(Stop { at });
    }
    let rest = Open {
        more: w - 1,
        low: low_of(b),
        high: high_of(b),
    };
    Ok(Some(Step { at: at + 1, rest }))
}

// The place behind the plain bytes from a place on, each below 0x80 and no quote: of a text only, and only between its chars.
fn after_plain(one: bool, more: u8, row: &[u8], at: usize) -> usize
    requires { at ≤ length row.now }
    ensures { PassesPlain one more row.now at result }
{
    if one {
        return at;
    }
    if more != 0 {
        return at;
    }
    for (i, b) in row[at..].iter().enumerate() {
        if 0x80 <= *b {
            return at + i;
        }
        if *b == QUOTE {
            return at + i;
        }
    }
    row.len()
}

// What is open behind so many plain bytes: nothing, or without one what was.
fn behind_run(run: usize, was: Open) -> Open
    ensures low { result.low ≡ behind_run run 0x80 was.low }
    ensures high { result.high ≡ behind_run run 0xbf was.high }
    ensures more { result.more ≡ was.more }
{
    if 0 < run {
        return Open {
            more: was.more,
            low: 0x80,
            high: 0xbf,
        };
    }
    was
}

// All bytes behind the first quote: a run of plain ones, then one that is looked at, and so on.
fn inside(one: bool, row: &[u8], from: usize) -> Result<Quoted, Stop>
    requires { from ≤ length row.now }
    ensures { Answers one (within 0 0 0 0) row.now from result }
{
    let mut at = from;
    let mut len: usize = 0;
    let mut open = NONE;
    while at < row.len() {
        let far = after_plain(one, open.more, row, at);
        if row.len() <= far {
            return Err(Stop { at: far });
        }
        let passed = len + (far - at);
        let now = behind_run(far - at, open);
        match next_byte(one, passed, now, row, far)? {
            None => {
                return Ok(Quoted {
                    len: passed,
                    at: far + 1,
                });
            }
            Some(step) => {
                at = step.at;
                open = step.rest;
                len = passed + 1;
            }
        }
    }
    Err(Stop { at })
}

// A text, or one char alone.
pub fn take_text(one: bool, row: &[u8], at: usize) -> Result<Quoted, Stop>
    requires { at ≤ length row.now }
    ensures { Answers one before row.now at result }
{
    if take_number::is_at(row, at, QUOTE) {
        return inside(one, row, at + 1);
    }
    Err(Stop { at })
}

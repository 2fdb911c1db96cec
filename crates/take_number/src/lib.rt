// A number of a CSV row, from a place of the row on: its word and the place behind it, or the first byte with which no number goes on.
#![tactic(auto)]

ghost use Rattle.std.specs.Prelude.{◌≡◌, ◌+◌, ◌*◌, ◌<◌, ◌≤◌, length, leb};
ghost use Rattle.desk.specs.declared.NotRows.TheVariants.{NoRow};
ghost use Rattle.take_number.specs.Scans.{is_at, DigitAt, FirstAt, Ends, further, TakesNumber, TakesUnder};

use desk::NotRows;

// A number that was read, and the place behind it.
#[derive(Clone, Copy)]
pub struct Numeral {
    pub word: u64,
    pub at: usize,
}

// Where an input stops being what is read of it.
#[derive(Clone, Copy)]
pub struct Stop {
    pub at: usize,
}

// Where a whole input stops is where it stops being a row.
impl From<Stop> for NotRows {
    ghost from_gives = { λ s e. e ≡ NoRow s.at };

    fn from(s: Stop) -> NotRows {
        NotRows::NoRow { place: s.at }
    }
}

const LARGEST: u64 = 0xffff_ffff_ffff_ffff;

// Whether a byte stands at a place.
pub fn is_at(row: &[u8], at: usize, b: u8) -> bool
    ensures { result ≡ is_at row.now at b }
{
    at < row.len() && row[at] == b
}

// The digit at a place.
fn digit(row: &[u8], at: usize) -> Option<u64>
    ensures { DigitAt row.now at result }
{
    let b = *row.get(at)?;
    match b {
        b'0'..=b'9' => Some((b - b'0') as u64),
        _ => None,
    }
}

// A number's first digit, from the least to the most.
fn first_digit(least: u64, most: u64, row: &[u8], at: usize) -> Result<u64, Stop>
    ensures { FirstAt least most row.now at result }
{
    match digit(row, at) {
        Some(d) if least <= d && d <= most => Ok(d),
        _ => Err(Stop { at }),
    }
}

// Whether a number with one digit more is at most so large.
fn fits(most: u64, x: u64, d: u64) -> bool
    requires { d ≤ 9 }
    ensures { result ≡ leb (10 * x + d) most }
{
    let tenth = most / 10;
    if x < tenth {
        return true;
    }
    if tenth < x {
        return false;
    }
    d <= most % 10
}

// The digits behind a number's first one.
fn take_digits(most: u64, first: u64, row: &[u8], from: usize) -> Numeral
    requires { (first ≤ most) × (from ≤ length row.now) }
    ensures { Ends (further most) first row.now from result.word result.at × (result.word ≤ most) × (first ≤ result.word) }
{
    let mut x = first;
    let mut at = from;
    while 0 < x {
        match digit(row, at) {
            Some(d) if fits(most, x, d) => {
                x = 10 * x + d;
                at = at + 1;
            }
            _ => break,
        }
    }
    Numeral { word: x, at }
}

// A number below zero, behind its minus.
fn take_under(below: u64, row: &[u8], at: usize) -> Result<Numeral, Stop>
    requires { at ≤ length row.now }
    ensures { TakesUnder below row.now at result }
{
    let d = first_digit(1, below, row, at)?;
    let size = take_digits(below, d, row, at + 1);
    Ok(Numeral {
        word: LARGEST - size.word + 1,
        at: size.at,
    })
}

// A number from so many below zero to so many above it.
pub fn take_number(below: u64, above: u64, row: &[u8], at: usize) -> Result<Numeral, Stop>
    requires { at ≤ length row.now }
    ensures { TakesNumber below above row.now at result }
{
    if is_at(row, at, b'-') {
        if 0 < below {
            return take_under(below, row, at + 1);
        }
        return Err(Stop { at });
    }
    let d = first_digit(0, above, row, at)?;
    Ok(take_digits(above, d, row, at + 1))
}

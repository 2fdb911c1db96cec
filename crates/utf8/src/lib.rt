// UTF-8: whether bytes are a text, a text's first char, and a char's bytes.
#![tactic(auto)]

ghost use Rattle.std.specs.Prelude.{◌≡◌, true, ◌+◌, ◌≤◌, leb, length, get_or, drop};
ghost use Rattle.wire.specs.Tests.{both};
ghost use Rattle.wire.specs.Text.{width_of, utf8, first_char, is_char};
ghost use Rattle.singles.specs.Passed.{Start};
ghost use Rattle.utf8.specs.Scan.{AreWidths, is_second, starts_three, Starts, Behind};
ghost use Rattle.utf8.specs.Chars.{lead_of, over_of, Form};

// How many bytes a sequence has that starts with a byte, 0 where none does. A row for each high half of the byte.
const WIDTHS: [[u8; 16]; 16] = [
    [1, 1, 1, 1, 1, 1, 1, 1, 1, 1, 1, 1, 1, 1, 1, 1], // 00
    [1, 1, 1, 1, 1, 1, 1, 1, 1, 1, 1, 1, 1, 1, 1, 1], // 10
    [1, 1, 1, 1, 1, 1, 1, 1, 1, 1, 1, 1, 1, 1, 1, 1], // 20
    [1, 1, 1, 1, 1, 1, 1, 1, 1, 1, 1, 1, 1, 1, 1, 1], // 30
    [1, 1, 1, 1, 1, 1, 1, 1, 1, 1, 1, 1, 1, 1, 1, 1], // 40
    [1, 1, 1, 1, 1, 1, 1, 1, 1, 1, 1, 1, 1, 1, 1, 1], // 50
    [1, 1, 1, 1, 1, 1, 1, 1, 1, 1, 1, 1, 1, 1, 1, 1], // 60
    [1, 1, 1, 1, 1, 1, 1, 1, 1, 1, 1, 1, 1, 1, 1, 1], // 70
    [0, 0, 0, 0, 0, 0, 0, 0, 0, 0, 0, 0, 0, 0, 0, 0], // 80
    [0, 0, 0, 0, 0, 0, 0, 0, 0, 0, 0, 0, 0, 0, 0, 0], // 90
    [0, 0, 0, 0, 0, 0, 0, 0, 0, 0, 0, 0, 0, 0, 0, 0], // A0
    [0, 0, 0, 0, 0, 0, 0, 0, 0, 0, 0, 0, 0, 0, 0, 0], // B0
    [0, 0, 2, 2, 2, 2, 2, 2, 2, 2, 2, 2, 2, 2, 2, 2], // C0
    [2, 2, 2, 2, 2, 2, 2, 2, 2, 2, 2, 2, 2, 2, 2, 2], // D0
    [3, 3, 3, 3, 3, 3, 3, 3, 3, 3, 3, 3, 3, 3, 3, 3], // E0
    [4, 4, 4, 4, 4, 0, 0, 0, 0, 0, 0, 0, 0, 0, 0, 0], // F0
];

fn all_widths() -> [[u8; 16]; 16]
    ensures { AreWidths result }
{
    WIDTHS
}

fn width(widths: &[[u8; 16]; 16], lead: u8) -> u8
    requires { AreWidths widths.now }
    ensures { result ≡ width_of lead }
{
    widths[(lead / 16) as usize][(lead % 16) as usize]
}

fn is_in(b: u8, low: u8, high: u8) -> bool
    ensures { result ≡ both (leb low b) (leb b high) }
{
    low <= b && b <= high
}

// Whether a byte may follow a lead byte: four of them leave only a part of 80 to BF. By two short matches, of which the
// compiler makes no table of jumps: its address would take a register from every text.
fn is_second(lead: u8, b: u8) -> bool
    ensures { result ≡ is_second lead b }
{
    if lead < 0xf0 {
        match lead {
            0xe0 => is_in(b, 0xa0, 0xbf),
            0xed => is_in(b, 0x80, 0x9f),
            _ => is_in(b, 0x80, 0xbf),
        }
    } else {
        match lead {
            0xf0 => is_in(b, 0x90, 0xbf),
            0xf4 => is_in(b, 0x80, 0x8f),
            _ => is_in(b, 0x80, 0xbf),
        }
    }
}

// A place behind sequences of two bytes only; where none stands, the same place, and the rest is no text. Where one stands
// others often follow.
fn after_twos(s: &[u8], from: usize) -> usize
    requires { Starts s.now from 0x80 0xdf }
    ensures { Behind s.now from result }
{
    let mut i = from;
    while 2 <= s.len() - i && is_in(s[i], 0xc2, 0xdf) && is_in(s[i + 1], 0x80, 0xbf) {
        i += 2;
    }
    i
}

// Whether a sequence of three may start with the two bytes at a place. Most leads, E1 to EC, leave all of 80 to BF to the
// second, and are told first.
fn starts_three(s: &[u8], at: usize) -> bool
    requires { at + 2 ≤ length s.now }
    ensures { result ≡ starts_three (get_or s.now at 0) (get_or s.now (at + 1) 0) }
{
    let lead = s[at];
    let plain = is_in(lead, 0xe1, 0xec);
    if plain {
        return is_in(s[at + 1], 0x80, 0xbf);
    }
    if lead < 0xe0 {
        return false;
    }
    is_second(lead, s[at + 1]) && lead < 0xf0
}

// A place behind sequences of three bytes only, likewise.
fn after_threes(s: &[u8], from: usize) -> usize
    requires { Starts s.now from 0xe0 0xef }
    ensures { Behind s.now from result }
{
    let mut i = from;
    while 3 <= s.len() - i && starts_three(s, i) && is_in(s[i + 2], 0x80, 0xbf) {
        i += 3;
    }
    i
}

// The same of four bytes.
fn after_fours(s: &[u8], from: usize) -> usize
    requires { Starts s.now from 0xf0 0xff }
    ensures { Behind s.now from result }
{
    let mut i = from;
    while 4 <= s.len() - i
        && is_in(s[i], 0xf0, 0xf4)
        && is_second(s[i], s[i + 1])
        && is_in(s[i + 2], 0x80, 0xbf)
        && is_in(s[i + 3], 0x80, 0xbf)
    {
        i += 4;
    }
    i
}

// The same of as many bytes as the sequence has that starts at a place. By ranges and not by the table of widths: a use of a
// constant array makes it anew, and most texts are shorter than that table.
fn after_alike(s: &[u8], from: usize) -> usize
    requires { Starts s.now from 0x80 0xff }
    ensures { Behind s.now from result }
{
    let lead = s[from];
    if lead < 0xe0 {
        return after_twos(s, from);
    }
    if lead < 0xf0 {
        return after_threes(s, from);
    }
    after_fours(s, from)
}

// Whether the bytes from a place on are a text.
fn is_rest(s: &[u8], from: usize) -> bool
    requires { Start s.now from }
    ensures { result ≡ utf8 (drop from s.now) }
{
    let mut i = from;
    while i < s.len() {
        let b = s[i];
        if b < 0x80 {
            i = singles::after_run(s, i + 1);
        } else {
            let next = after_alike(s, i);
            if next == i {
                return false;
            }
            i = next;
        }
    }
    true
}

// Whether bytes are a text, in one pass.
pub fn is_text(s: &[u8]) -> bool
    ensures { result ≡ utf8 s.now }
{
    let i = singles::after_singles(s);
    if i == s.len() {
        return true;
    }
    is_rest(s, i)
}

// A lead byte's part of the code point.
fn lead_part(b: u8) -> u64
    ensures { result ≡ lead_of b }
{
    let x = b as u64;
    match b {
        0..=0x7f => x,
        0xc2..=0xdf => x - 0xc0,
        0xe0..=0xef => x - 0xe0,
        0xf0..=0xf4 => x - 0xf0,
        _ => 0,
    }
}

// A following byte's part.
fn over(b: u8) -> u64
    ensures { result ≡ over_of b }
{
    b.saturating_sub(0x80) as u64
}

// The code point that a text starts with.
pub fn first_char(s: &[u8]) -> u64
    ensures { result ≡ first_char s.now }
{
    if s.len() == 0 {
        return 0;
    }
    let lead = s[0];
    let mut value = lead_part(lead);
    // a single byte wants no table
    if lead < 0x80 {
        return value;
    }
    let widths = all_widths();
    let wide = width(&widths, lead) as usize;
    for i in 1..wide.min(s.len()) {
        value = 64 * value + over(s[i]);
    }
    value
}

// Whether a number is a code point: none is above 10FFFF, and a surrogate is none.
pub fn is_char(c: u64) -> bool
    ensures { result ≡ is_char c }
{
    c < 0xd800 || 0xe000 <= c && c < 0x110000
}

// The bytes of a code point, with zeros behind them; none where it is no char.
#[derive(Clone, Copy)]
pub struct CharBytes {
    pub bytes: [u8; 4],
    pub len: usize,
}

// The bytes of a char, by how many it has.
fn form(c: u64) -> CharBytes
    requires { is_char c ≡ true }
    ensures { Form c result.bytes result.len }
{
    if c < 0x80 {
        return CharBytes {
            bytes: [c as u8, 0, 0, 0],
            len: 1,
        };
    }
    if c < 0x800 {
        return CharBytes {
            bytes: [(0xc0 + c / 64) as u8, (0x80 + c % 64) as u8, 0, 0],
            len: 2,
        };
    }
    if c < 0x10000 {
        return CharBytes {
            bytes: [
                (0xe0 + c / 4096) as u8,
                (0x80 + c / 64 % 64) as u8,
                (0x80 + c % 64) as u8,
                0,
            ],
            len: 3,
        };
    }
    CharBytes {
        bytes: [
            (0xf0 + c / 262144) as u8,
            (0x80 + c / 4096 % 64) as u8,
            (0x80 + c / 64 % 64) as u8,
            (0x80 + c % 64) as u8,
        ],
        len: 4,
    }
}

pub fn char_bytes(c: u64) -> CharBytes
    ensures { Form c result.bytes result.len }
{
    if is_char(c) {
        form(c)
    } else {
        CharBytes {
            bytes: [0; 4],
            len: 0,
        }
    }
}

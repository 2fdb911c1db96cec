// The single bytes of a text, which are nearly all: passed over eight at a time where there are so many.
#![tactic(auto)]

ghost use Rattle.std.specs.Prelude.{◌≡◌, ◌+◌, ◌≤◌, eqb, length, take, drop};
ghost use Rattle.std.specs.Int.Bits.{bit_and};
ghost use Rattle.wire.specs.Numbers.{little};
ghost use Rattle.singles.specs.Passed.{Start, Same};

// Whether none of four bytes has its high bit set: then each is a single one.
fn four_single(s: &[u8], at: usize) -> bool
    requires { at + 4 ≤ length s.now }
    ensures { result ≡ eqb (bit_and (little (take 4 (drop at s.now))) 0x8080_8080) 0 }
{
    let x = eights::four(s, at);
    x & 0x8080_8080 == 0
}

// The same of eight.
fn eight_single(s: &[u8], at: usize) -> bool
    requires { at + 8 ≤ length s.now }
    ensures { result ≡ eqb (bit_and (little (take 8 (drop at s.now))) 0x8080_8080_8080_8080) 0 }
{
    let x = eights::number(s, at);
    x & 0x8080_8080_8080_8080 == 0
}

// A place behind single bytes only, where there may be many: eight are passed over at a time, and four times eight in a turn.
// Each eight is tested by itself; joined first, they take nearly twice as long.
fn after_words(s: &[u8], from: usize) -> usize
    requires { Start s.now from }
    ensures { Same s.now from result }
{
    let mut i = from;
    while 32 <= s.len() - i {
        let w0 = eight_single(s, i);
        if !w0 {
            return i;
        }
        let w1 = eight_single(s, i + 8);
        if !w1 {
            return i + 8;
        }
        let w2 = eight_single(s, i + 16);
        if !w2 {
            return i + 16;
        }
        let w3 = eight_single(s, i + 24);
        if !w3 {
            return i + 24;
        }
        i += 32;
    }
    i
}

// The same, eight in a turn, for what longer turns leave.
fn after_eights(s: &[u8], from: usize) -> usize
    requires { Start s.now from }
    ensures { Same s.now from result }
{
    let mut i = from;
    while 8 <= s.len() - i {
        if !eight_single(s, i) {
            return i;
        }
        i += 8;
    }
    i
}

// A place behind single bytes only, with no four more of them: four are tested in a turn, for speed.
fn after_ascii(s: &[u8], from: usize) -> usize
    requires { Start s.now from }
    ensures { Same s.now from result }
{
    let mut i = from;
    while 4 <= s.len() - i {
        let b0 = s[i];
        if 0x80 <= b0 {
            return i;
        }
        let b1 = s[i + 1];
        if 0x80 <= b1 {
            return i + 1;
        }
        let b2 = s[i + 2];
        if 0x80 <= b2 {
            return i + 2;
        }
        let b3 = s[i + 3];
        if 0x80 <= b3 {
            return i + 3;
        }
        i += 4;
    }
    i
}

// A place behind single bytes only, of which there are at most three.
fn after_three(s: &[u8], from: usize) -> usize
    requires { from + 3 ≤ length s.now }
    ensures { Same s.now from result }
{
    let b0 = s[from];
    if 0x80 <= b0 {
        return from;
    }
    let b1 = s[from + 1];
    if 0x80 <= b1 {
        return from + 1;
    }
    let b2 = s[from + 2];
    if 0x80 <= b2 {
        return from + 2;
    }
    from + 3
}

// The same of at most seven, four of them by one test.
fn after_seven(s: &[u8], from: usize) -> usize
    requires { from + 8 ≤ length s.now }
    ensures { Same s.now from result }
{
    if four_single(s, from) {
        return after_three(s, from + 4);
    }
    after_three(s, from)
}

// A place behind single bytes only, between other chars: the next is no single one, or the end is near.
pub fn after_run(s: &[u8], from: usize) -> usize
    requires { Start s.now from }
    ensures { Same s.now from result }
{
    let mut i = from;
    while 8 <= s.len() - i {
        if !eight_single(s, i) {
            return after_seven(s, i);
        }
        i += 8;
    }
    after_ascii(s, i)
}

// A place behind single bytes only in a text of eight bytes or more. The last of them, fewer than eight, are tested together
// with some of those in front of them.
fn after_long(s: &[u8]) -> usize
    requires { 8 ≤ length s.now }
    ensures { Same s.now 0 result }
{
    let len = s.len();
    let most = after_words(s, 0);
    let i = after_eights(s, most);
    if len - i <= 8 && eight_single(s, len - 8) {
        return len;
    }
    after_ascii(s, i)
}

// The same in a text of four to eight bytes: its first four and its last four are all of them.
fn after_short(s: &[u8]) -> usize
    requires { (4 ≤ length s.now) × (length s.now ≤ 8) }
    ensures { Same s.now 0 result }
{
    let len = s.len();
    if four_single(s, 0) && four_single(s, len - 4) {
        return len;
    }
    after_ascii(s, 0)
}

// The same one by one, for a text of fewer than four.
fn after_few(s: &[u8]) -> usize
    ensures { Same s.now 0 result }
{
    for (i, b) in s.iter().enumerate() {
        if 0x80 <= *b {
            return i;
        }
    }
    s.len()
}

// A place behind single bytes only: the end, where there are no others.
pub fn after_singles(s: &[u8]) -> usize
    ensures { Same s.now 0 result }
{
    let len = s.len();
    if 8 <= len {
        return after_long(s);
    }
    if 4 <= len {
        return after_short(s);
    }
    after_few(s)
}

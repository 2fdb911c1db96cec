// The first zero of a chunk, and the message of a frame, decoded group by group.
// What is right stands in wire's specs/Frames.antt.
#![tactic(auto)]

ghost use Rattle.std.specs.Prelude.{◌≡◌, [], ◌++◌, ◌+◌, ◌≤◌, length, take, drop, replicate};
ghost use Rattle.wire.specs.Frames.{room, gap_after, to_zero, padded};
ghost use Rattle.wire.specs.Frames.{decode as message_of};
ghost use Rattle.decoder.specs.Parts.{found_of, nowhere, Seeks, with, Decodable, Decodes, Joinable};

// A frame that holds no message.
#[derive(Clone, Copy)]
pub struct Bad;

// The bytes that a frame may have, its closing zero among them.
pub const ROOM: usize = 2048;

// Whether none of eight bytes is zero. The low seven bits of a byte and 127 make its high bit unless they are all zero, and
// never more than a byte, so that no sum reaches the byte behind it.
fn without_zero(s: &[u8], at: usize) -> bool
    requires { at + 8 ≤ length s.now }
    ensures { result ≡ nowhere (to_zero (take 8 (drop at s.now))) }
{
    let x = eights::number(s, at);
    let low = x & 0x7F7F_7F7F_7F7F_7F7F;
    let sum = low + 0x7F7F_7F7F_7F7F_7F7F;
    (sum | x) & 0x8080_8080_8080_8080 == 0x8080_8080_8080_8080
}

// A place in front of which there is no zero: the first zero stands in the eight bytes from there, or the end does. Eight
// are tested in a turn, for speed.
fn near_zero(s: &[u8]) -> usize
    ensures { Seeks s.now result }
{
    let mut i = 0;
    while 8 <= s.len() - i {
        let without = without_zero(s, i);
        if !without {
            return i;
        }
        i += 8;
    }
    i
}

pub fn first_zero(s: &[u8]) -> Option<usize>
    ensures { result ≡ found_of (to_zero s.now) }
{
    let mut i = near_zero(s);
    while i < s.len() {
        if s[i] == 0 {
            return Some(i);
        }
        i += 1;
    }
    None
}

// Copies a part into an array of the room's length, from `at` on.
fn put_bytes(array: &mut [u8], at: usize, part: &[u8])
    requires { (at + length part.now ≤ room) × (length array.old ≡ room) }
    ensures { array.new ≡ with array.old at part.now }
{
    let mut i = 0;
    while i < part.len() {
        let to = at + i;
        array[to] = part[i];
        i += 1;
    }
}

// The same. Short parts have a call of their own: there the compiler knows that they are sixteen bytes at the most, and
// copies a chunk of sixteen in one step.
pub fn put(array: &mut [u8], at: usize, part: &[u8])
    requires { (at + length part.now ≤ room) × (length array.old ≡ room) }
    ensures { array.new ≡ with array.old at part.now }
{
    if part.len() <= 16 {
        put_bytes(array, at, part);
    } else {
        put_bytes(array, at, part);
    }
}

pub fn clear(message: &mut [u8])
    ensures { message.new ≡ replicate (length message.old) 0 }
{
    let mut i = 0;
    while i < message.len() {
        message[i] = 0;
        i += 1;
    }
}

pub fn zeros() -> [u8; ROOM]
    ensures { result ≡ padded [] }
{
    [0; ROOM]
}

// How many zeros of the message stand behind a group of this code, where another group follows.
fn gap_after(code: u8) -> usize
    ensures { result ≡ gap_after code }
{
    if code == 255 {
        return 0;
    }
    1
}

// The message of a frame without its closing zero, group by group. The message's slice is zeros
// behind `len`, so that a gap's zeros stand there already.
fn decode(frame: &[u8], message: &mut [u8]) -> Result<usize, Bad>
    requires { Decodable frame.now message.old }
    ensures { Decodes (message_of frame.now) message.new result }
{
    let mut gap = 0;
    let mut len = 0;
    let mut i = 0;
    while i < frame.len() {
        let code = frame[i];
        let from = i + 1;
        let to = len + gap;
        let after = gap_after(code);
        if code == 1 {
            // A run of zeros: the next code is read without waiting for this one.
            len = to;
            gap = after;
            i = from;
        } else if code == 2 {
            // One byte wants no loop.
            if from == frame.len() {
                return Err(Bad);
            }
            message[to] = frame[from];
            len = to + 1;
            gap = after;
            i = from + 1;
        } else {
            let count = code as usize - 1;
            if frame.len() - from < count {
                return Err(Bad);
            }
            let end = from + count;
            put_bytes(message, to, &frame[from..end]);
            len = to + count;
            gap = after;
            i = end;
        }
    }
    Ok(len)
}

// The message of a frame that stands in two parts, of which only the first can hold a zero. A frame that came in one chunk
// is decoded where it stands; any other is joined first.
pub fn decode_parts(front: &[u8], back: &[u8], message: &mut [u8]) -> Result<usize, Bad>
    requires { Joinable front.now back.now message.old }
    ensures { Decodes (message_of (front.now ++ back.now)) message.new result }
{
    if front.len() == 0 {
        return decode(back, message);
    }
    let found = first_zero(front);
    let None = found else {
        return Err(Bad);
    };
    let mut frame = zeros();
    let at = front.len();
    let end = at + back.len();
    put(&mut frame, 0, front);
    put(&mut frame, at, back);
    decode(&frame[..end], message)
}

// Sends a message as a COBS frame. What a frame is stands in wire's specs/Sending.antt; what the steps leave, in specs/Steps.antt.
#![tactic(auto)]

ghost use Rattle.std.specs.Prelude.{◌≡◌, ◌+◌, ◌≤◌, length, drop, replicate, leb};
ghost use Rattle.std.proofs.lemmas.List.Edits.{sets};
ghost use Rattle.wire.specs.Sending.{sends};
ghost use Rattle.wire.specs.Sending.{frame as frame_of};
ghost use Rattle.laws.specs.Answered.{Writes};
ghost use Rattle.framer.specs.Steps.{through_zero, Most, Runnable, Ran, Fillable, Filled, Put};

use wire::{Refusal, RefusedAt};

// The bytes of a full group.
const FULL: usize = 254;

// ---- whether a frame fits

// How many of the 254 bytes from a place on stand up to the last zero among them, and with it.
fn through_zero(message: &[u8], from: usize) -> usize
    requires { from + 254 ≤ length message.now }
    ensures { result ≡ through_zero 254 (drop from message.now) }
{
    let mut left = FULL;
    while 0 < left {
        let last = left - 1;
        let at = from + last;
        if message[at] == 0 {
            return left;
        }
        left = last;
    }
    0
}

// A frame's length. Each group that is full and not the last takes a byte more than its message has; where a zero stands
// within 254 bytes, all in front of it is passed at once.
fn size(message: &[u8]) -> usize
    ensures { result ≡ length (frame_of message.now) }
{
    let len = message.len();
    let mut from = 0;
    let mut more = 0;
    while FULL < len - from {
        let passed = through_zero(message, from);
        if passed == 0 {
            from = from + FULL;
            more = more + 1;
        } else {
            from = from + passed;
        }
    }
    len + more + 2
}

// Whether a message's frame fits into so many bytes. Most outputs have room for any frame of such a message.
fn has_room(message: &[u8], room: usize) -> bool
    ensures { result ≡ leb (length (frame_of message.now)) room }
{
    let len = message.len();
    let most = len + len / FULL + 2;
    if most <= room {
        return true;
    }
    let need = size(message);
    need <= room
}

// ---- the frame

// How many bytes a group has at the most, where so many are left of the message.
fn most_bytes(left: usize) -> usize
    ensures { Most left result }
{
    if FULL < left {
        return FULL;
    }
    left
}

// Copies the bytes of a group, from a place in the message to one in the output, up to a zero or the 254th, and answers how
// many they are.
fn put_run(message: &[u8], from: usize, out: &mut [u8], to: usize) -> usize
    requires { Runnable message.now from out.old to }
    ensures { Ran message.now from out.old to result out.new }
{
    let left = message.len() - from;
    let most = most_bytes(left);
    let mut n = 0;
    while n < most {
        let b = message[from + n];
        if b == 0 {
            return n;
        }
        out[to + n] = b;
        n = n + 1;
    }
    n
}

// Puts the code of an empty group, 01, eight times. The compiler makes one store of it.
fn put_eight(out: &mut [u8], at: usize)
    requires { at + 8 ≤ length out.old }
    ensures { out.new ≡ sets out.old at (replicate 8 1) }
{
    out[at] = 1;
    out[at + 1] = 1;
    out[at + 2] = 1;
    out[at + 3] = 1;
    out[at + 4] = 1;
    out[at + 5] = 1;
    out[at + 6] = 1;
    out[at + 7] = 1;
}

// Puts 01 for each zero from a place in the message on, eight in a turn while there are so many, and answers how many.
fn put_eights(message: &[u8], from: usize, out: &mut [u8], to: usize) -> usize
    requires { Fillable message.now from out.old to }
    ensures { Filled message.now from out.old to result out.new }
{
    let mut left = message.len() - from;
    let mut n = 0;
    while 8 <= left {
        let x = eights::number(message, from + n);
        if x != 0 {
            return n;
        }
        put_eight(out, to + n);
        n = n + 8;
        left = left - 8;
    }
    n
}

// The same of all zeros up to another byte, the last of them one by one.
fn put_ones(message: &[u8], from: usize, out: &mut [u8], to: usize) -> usize
    requires { Fillable message.now from out.old to }
    ensures { Filled message.now from out.old to result out.new }
{
    let left = message.len() - from;
    let mut n = put_eights(message, from, out, to);
    while n < left {
        let b = message[from + n];
        if b != 0 {
            return n;
        }
        out[to + n] = 1;
        n = n + 1;
    }
    n
}

// Puts a message's frame in front in an output that has room for it, group by group, and answers its length.
fn put_frame(message: &[u8], out: &mut [u8]) -> usize
    requires { length (frame_of message.now) ≤ length out.old }
    ensures { Put (frame_of message.now) out.old result out.new }
{
    let len = message.len();
    let mut from = 0;
    let mut at = 0;
    loop {
        let to = at + 1;
        let count = put_run(message, from, out, to);
        let end = from + count;
        let code = (count + 1) as u8;
        out[at] = code;
        let next = to + count;
        let after = end + 1;
        if len <= end {
            out[next] = 0;
            return next + 1;
        }
        if count == FULL {
            from = end;
            at = next;
        } else if count == 0 {
            // Each zero behind a zero is an empty group too, and there may be many.
            let ones = put_ones(message, after, out, next);
            from = after + ones;
            at = next + ones;
        } else {
            from = after;
            at = next;
        }
    }
}

// Writes a message's frame, or refuses with the output unchanged.
pub fn frame(message: &[u8], out: &mut [u8]) -> Result<usize, RefusedAt>
    ensures { Writes (sends message.now (length out.old)) out.old result out.new }
{
    let room = out.len();
    if has_room(message, room) {
        let place = put_frame(message, out);
        return Ok(place);
    }
    Err(RefusedAt {
        why: Refusal::Full,
        place: 0,
    })
}

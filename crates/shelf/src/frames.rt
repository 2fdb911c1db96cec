// A recorded stream of any length, fed to the accumulator chunk by chunk; and a message as a frame, to be sent.
ghost use Rattle.std.specs.Prelude.{◌≡◌, ◌+◌, ◌^◌, ◌≤◌, ◌<◌, length, IfOk, IfErr};
ghost use Rattle.wire.specs.Frames.{room};

use crate::files::{LARGE, large_room};
use crate::{files, shown};
use accumulator::{Accumulator, Fed};
use say::{Count, Hex, front};
use std::io;
use std::io::Read;
use std::rt::Runtime;
use wire::FeedAnswer;

// What a feed of the stream up to a place answers.
fn say_fed(rt: &impl Print, fed: Fed, place: usize) -> io::Result<()> {
    match fed.answer {
        FeedAnswer::Consumed => Ok(()),
        FeedAnswer::OverFull => println!(rt; "refused: 21, over-full, at byte {place}"),
        FeedAnswer::BadFrame => println!(rt; "refused: 22, bad frame, at byte {place}"),
        FeedAnswer::BadState => println!(rt; "refused: 24, bad state, at byte {place}"),
        FeedAnswer::Frame => {
            println!(rt;
                "frame up to byte {place}:{}",
                Hex(front(&fed.message, fed.len))
            )
        }
    }
}

// At the zero that ends the waiting: how many bytes were dropped, so many of them before this chunk.
fn say_dropped(rt: &impl Print, waiting: bool, chunk: &[u8], earlier: usize) -> io::Result<()>
    requires { earlier + length chunk.now < 2 ^ 64 }
{
    if waiting {
        if let Some(n) = chunk.iter().position(|byte| *byte == 0) {
            let bytes = Count((earlier + n + 1) as u64, "byte");
            println!(rt; "{bytes} dropped, up to the end of an over-full frame")?;
        }
    }
    Ok(())
}

// A stream as far as it was fed: the state, the place behind the fed bytes, and the place behind the last that were over-full.
#[derive(Clone, Copy)]
struct Stream {
    state: Accumulator,
    place: usize,
    over: usize,
}

// The place behind the last over-full bytes, after a feed up to a place.
fn behind_over(answer: FeedAnswer, place: usize, over: usize) -> usize
    requires { over ≤ place }
    ensures { result ≤ place }
{
    match answer {
        FeedAnswer::OverFull => place,
        _ => over,
    }
}

// Feeds the stream's next chunk until nothing is left of it.
fn feed_all(rt: &impl Print, stream: Stream, chunk: &[u8]) -> io::Result<Stream>
    requires { (stream.state.idx ≤ room) × (stream.over ≤ stream.place) × (stream.place + length chunk.now < 2 ^ 64) }
    ensures { IfOk result (λ fed. (fed.state.idx ≤ room) × (fed.over ≤ fed.place) × (fed.place ≡ stream.place + length chunk.now)) }
{
    let mut state = stream.state;
    let mut place = stream.place;
    let mut over = stream.over;
    let mut left = chunk;
    while 0 < left.len() {
        say_dropped(rt, state.waiting, left, place - over)?;
        let fed = accumulator::feed(state, left);
        let rest = accumulator::rest(left, fed);
        place = place + (left.len() - rest.len());
        over = behind_over(fed.answer, place, over);
        say_fed(rt, fed, place)?;
        left = rest;
        state = fed.state;
    }
    Ok(Stream { state, place, over })
}

// Reads the stream's next bytes, from a place of it on. There are no more than have a place, which no run comes to; so the
// loop over them ends.
fn read_some<S: Read>(
    rt: &impl Eprint,
    from: &mut S,
    path: &[u8],
    at: usize,
    chunk: &mut [u8],
) -> io::Result<usize>
    ensures ok { IfOk result (λ n. (n ≤ length chunk.new) × (at + n < 2 ^ 64)) }
    ensures err { IfErr result (λ why. length chunk.new ≡ length chunk.old) }
{
    let n = match from.read(chunk) {
        Ok(n) => n,
        Err(why) => {
            host::fail(rt, path, why)?;
            0
        }
    };
    Ok(if usize::MAX - at < n { 0 } else { n })
}

// What is left unfinished at the end.
fn say_end(rt: &impl Print, stream: Stream) -> io::Result<()>
    requires { stream.over ≤ stream.place }
{
    if stream.state.waiting {
        let bytes = Count((stream.place - stream.over) as u64, "byte");
        println!(rt; "{bytes} dropped, and the end of an over-full frame didn't come")
    } else if 0 < stream.state.idx {
        let bytes = Count(stream.state.idx as u64, "byte");
        println!(rt; "{bytes} of an unfinished frame at the end")
    } else {
        Ok(())
    }
}

fn show<S: Read>(rt: &(impl Print + Eprint), from: &mut S, path: &[u8]) -> io::Result<()> {
    let mut chunk = host::buffer();
    let mut stream = Stream {
        state: Accumulator::new(),
        place: 0,
        over: 0,
    };
    let mut got = read_some(rt, from, path, 0, &mut chunk)?;
    while 0 < got {
        stream = feed_all(rt, stream, &chunk[..got])?;
        got = read_some(rt, from, path, stream.place, &mut chunk)?;
    }
    say_end(rt, stream)
}

// shelf frames [FILE], of so many words.
pub fn run(rt: &impl Runtime, words: usize) -> io::Result<()> {
    if words == 2 {
        return show(rt, &mut rt.reader(), b"standard input");
    }
    let mut buffer = host::buffer();
    let path = host::word(rt, 2, &mut buffer);
    match host::open(rt, path) {
        Ok(mut file) => show(rt, &mut file, path),
        Err(why) => host::fail(rt, path, why),
    }
}

// Puts a message's frame into a room of its own, and that into the file of the command's word 3 only if it fits there.
pub fn save(rt: &impl Runtime, message: &[u8]) -> io::Result<()> {
    let mut out = large_room();
    match framer::frame(message, &mut out) {
        Ok(place) => files::save(rt, 3, front(&out, place)),
        Err(refused) => shown::say_refusal(rt, refused, "frame", LARGE),
    }
}

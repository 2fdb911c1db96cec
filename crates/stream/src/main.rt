// Feeds standard input to the accumulator in odd chunks and writes what each feed answers: its
// number and name, how long the rest is, the state's idx and whether it waits, and a frame's message in hex.
#![tactic(auto)]

ghost use Rattle.std.specs.Prelude.{◌≤◌, ◌<◌, IfOk};
ghost use Rattle.wire.specs.Frames.{room};

use accumulator::{Accumulator, Fed};
use say::{Hex, front};
use std::io;
use wire::FeedAnswer;

fn name(answer: FeedAnswer) -> &'static str {
    match answer {
        FeedAnswer::Consumed => "consumed",
        FeedAnswer::OverFull => "over-full",
        FeedAnswer::BadFrame => "bad frame",
        FeedAnswer::Frame => "frame",
        FeedAnswer::BadState => "bad state",
    }
}

fn say_fed(rt: &impl Print, fed: Fed, rest: usize) -> io::Result<()> {
    let number = numbers::feed(fed.answer);
    print!(rt;
        "  {number} {}, rest {rest}, idx {}",
        name(fed.answer),
        fed.state.idx
    )?;
    if fed.state.waiting {
        print!(rt; ", waiting")?;
    }
    println!(rt; ", message{}", Hex(front(&fed.message, fed.len)))
}

// Feeds a chunk until nothing is left of it.
fn feed_all(rt: &impl Print, state: Accumulator, chunk: &[u8]) -> io::Result<Accumulator>
    requires { state.idx ≤ room }
    ensures { IfOk result (λ left. left.idx ≤ room) }
{
    let mut state = state;
    let mut left = chunk;
    while 0 < left.len() {
        let fed = accumulator::feed(state, left);
        let rest = accumulator::rest(left, fed);
        say_fed(rt, fed, rest.len())?;
        left = rest;
        state = fed.state;
    }
    Ok(state)
}

// Where the chunk that starts at `at` ends: it has 1 to 61 bytes.
fn cut(at: usize, end: usize) -> usize
    requires { at < end }
    ensures { (at < result) × (result ≤ end) }
{
    let size = at % 13 * 5 + 1;
    if end - at < size { end } else { at + size }
}

fn main(rt: HostRuntime) -> io::Result<()> {
    let mut input = host::large_buffer();
    let end = host::read_full(&mut rt.stdin(), &mut input)?;
    let mut state = Accumulator::new();
    let mut at = 0;
    while at < end {
        let to = cut(at, end);
        println!(&rt; "chunk of {}", to - at)?;
        state = feed_all(&rt, state, &input[at..to])?;
        at = to;
    }
    Ok(())
}

// The accumulator: collects chunks of a stream until a frame's closing zero, and decodes the frame. Behind a frame that is
// too long it waits for the zero; the bridge's feeds don't.
// What is right stands in wire's specs/Frames.antt; what lent memory holds then, in specs/Feeding.antt.
#![tactic(auto)]

ghost use Rattle.std.specs.Prelude.{◌≡◌, false, [], ◌+◌, ◌≤◌, length, drop};
ghost use Rattle.wire.specs.Frames.{room, to_zero, padded, feed_on, feed_end};
ghost use Rattle.wire.specs.Frames.{rule, feed_by, feed_bridge, feed_fresh, feed_waiting};
ghost use Rattle.wire.specs.Frames.{feed as feed_of};
ghost use Rattle.accumulator.specs.Feeding.{written, marked, bridge_lent, feed_lent, without, Feeds, FeedsMarked, FeedsBy};
ghost use Rattle.accumulator.specs.Parts.{Endable, Fresh};

use wire::FeedAnswer;

// The bytes that a frame may have, its closing zero among them.
pub const ROOM: usize = decoder::ROOM;

// The state: a frame's first idx bytes stand in the array's front, or the end of an over-full frame is waited for.
#[derive(Clone, Copy)]
pub struct Accumulator {
    pub array: [u8; ROOM],
    pub idx: usize,
    pub waiting: bool,
}

// What a feed in lent memory answers: the state's new idx, the message's length, and how many bytes
// of the chunk are consumed.
#[derive(Clone, Copy)]
pub struct Step {
    pub answer: FeedAnswer,
    pub idx: usize,
    pub len: usize,
    pub used: usize,
}

// The same, and whether the state then waits.
#[derive(Clone, Copy)]
pub struct Marked {
    pub step: Step,
    pub waiting: bool,
}

// What a feed of a state by value answers: the new state, the message with its length and zeros
// behind it, and how many bytes of the chunk are consumed.
#[derive(Clone, Copy)]
pub struct Fed {
    pub answer: FeedAnswer,
    pub state: Accumulator,
    pub message: [u8; ROOM],
    pub len: usize,
    pub used: usize,
}

// An answer that comes with no message.
fn no_message(answer: FeedAnswer, idx: usize, used: usize) -> Step
    ensures { result ≡ without answer idx used }
{
    Step {
        answer,
        idx,
        len: 0,
        used,
    }
}

// A chunk with no zero in it.
fn feed_on(array: &mut [u8], idx: usize, chunk: &[u8]) -> Step
    requires { (idx ≤ room) × (length array.old ≡ room) }
    ensures { Feeds (written (feed_on rule array.old idx chunk.now)) chunk.now array.new (padded []) result }
{
    let free = ROOM - idx;
    let all = chunk.len();
    if free < all {
        return no_message(FeedAnswer::OverFull, 0, free);
    }
    decoder::put(array, idx, chunk);
    let end = idx + all;
    no_message(FeedAnswer::Consumed, end, all)
}

// A chunk whose first zero is at n: the end of the frame whose front the array holds.
fn feed_end(array: &[u8], idx: usize, chunk: &[u8], n: usize, message: &mut [u8]) -> Step
    requires { Endable array.now idx chunk.now n message.old }
    ensures { Feeds (written (feed_end rule array.now idx chunk.now n)) chunk.now array.now message.new result }
{
    let used = n + 1;
    if ROOM - idx < used {
        return no_message(FeedAnswer::OverFull, 0, used);
    }
    let front = &array[..idx];
    let back = &chunk[..n];
    let decoded = decoder::decode_parts(front, back, message);
    let Ok(len) = decoded else {
        decoder::clear(message);
        return no_message(FeedAnswer::BadFrame, 0, used);
    };
    Step {
        answer: FeedAnswer::Frame,
        idx: 0,
        len,
        used,
    }
}

// The bridge's feed, where slices have the room's length and the message is all zeros: document 01's step table.
fn feed_table(array: &mut [u8], idx: usize, chunk: &[u8], message: &mut [u8]) -> Step
    requires { (length array.old ≡ room) × (message.old ≡ padded []) }
    ensures { Feeds (written (feed_by rule array.old idx chunk.now)) chunk.now array.new message.new result }
{
    if ROOM < idx {
        return no_message(FeedAnswer::BadState, idx, 0);
    }
    let found = decoder::first_zero(chunk);
    let Some(n) = found else {
        return feed_on(array, idx, chunk);
    };
    feed_end(array, idx, chunk, n, message)
}

// A chunk that comes to a good state that isn't waiting: where it lacks a zero and doesn't fit, nothing of it is kept, and
// the state waits.
fn feed_fresh(array: &mut [u8], idx: usize, chunk: &[u8], message: &mut [u8]) -> Marked
    requires { Fresh array.old idx message.old }
    ensures { FeedsMarked (marked (feed_fresh array.old idx chunk.now)) chunk.now array.new message.new result }
{
    let found = decoder::first_zero(chunk);
    let Some(n) = found else {
        let all = chunk.len();
        if ROOM - idx < all {
            let dropped = no_message(FeedAnswer::OverFull, 0, all);
            return Marked {
                step: dropped,
                waiting: true,
            };
        }
        let taken = feed_on(array, idx, chunk);
        return Marked {
            step: taken,
            waiting: false,
        };
    };
    let step = feed_end(array, idx, chunk, n, message);
    Marked {
        step,
        waiting: false,
    }
}

// A chunk that comes to a waiting state: all up to the first zero is dropped, and what follows is a chunk of its own.
fn feed_waiting(array: &mut [u8], chunk: &[u8], message: &mut [u8]) -> Marked
    requires { Fresh array.old 0 message.old }
    ensures { FeedsMarked (marked (feed_waiting array.old chunk.now (to_zero chunk.now))) chunk.now array.new message.new result }
{
    let found = decoder::first_zero(chunk);
    let Some(n) = found else {
        let all = chunk.len();
        let dropped = no_message(FeedAnswer::Consumed, 0, all);
        return Marked {
            step: dropped,
            waiting: true,
        };
    };
    let from = n + 1;
    let behind = feed_fresh(array, 0, &chunk[from..], message);
    let step = behind.step;
    let used = from + step.used;
    let answer = step.answer;
    let counted = Step {
        answer,
        idx: step.idx,
        len: step.len,
        used,
    };
    Marked {
        step: counted,
        waiting: behind.waiting,
    }
}

// The default feed, where slices have the room's length and the message is all zeros.
fn feed_marked(
    array: &mut [u8],
    idx: usize,
    waiting: bool,
    chunk: &[u8],
    message: &mut [u8],
) -> Marked
    requires { (length array.old ≡ room) × (message.old ≡ padded []) }
    ensures { FeedsMarked (marked (feed_of array.old idx waiting chunk.now)) chunk.now array.new message.new result }
{
    if idx > ROOM {
        let bad = no_message(FeedAnswer::BadState, idx, 0);
        return Marked { step: bad, waiting };
    }
    if waiting {
        return feed_waiting(array, chunk, message);
    }
    feed_fresh(array, idx, chunk, message)
}

// Feeds a chunk to a state whose array is lent, and writes the message's slice whole. Where one of
// the two hasn't the room's length, the state is bad, and nothing changes.
pub fn feed_lent(
    array: &mut [u8],
    idx: usize,
    waiting: bool,
    chunk: &[u8],
    message: &mut [u8],
) -> Marked
    ensures { FeedsMarked (feed_lent array.old idx waiting chunk.now message.old) chunk.now array.new message.new result }
{
    if array.len() != ROOM {
        let bad = no_message(FeedAnswer::BadState, idx, 0);
        return Marked { step: bad, waiting };
    }
    if message.len() != ROOM {
        let bad = no_message(FeedAnswer::BadState, idx, 0);
        return Marked { step: bad, waiting };
    }
    decoder::clear(message);
    feed_marked(array, idx, waiting, chunk, message)
}

// The same by the bridge's way, which neither reads nor changes a mark.
pub fn feed_bridge_lent(array: &mut [u8], idx: usize, chunk: &[u8], message: &mut [u8]) -> Step
    ensures { Feeds (bridge_lent array.old idx chunk.now message.old) chunk.now array.new message.new result }
{
    if array.len() != ROOM {
        return no_message(FeedAnswer::BadState, idx, 0);
    }
    if message.len() != ROOM {
        return no_message(FeedAnswer::BadState, idx, 0);
    }
    decoder::clear(message);
    feed_table(array, idx, chunk, message)
}

impl Accumulator {
    pub fn new() -> Self
        ensures { (result.array ≡ padded []) × (result.idx ≡ 0) × (result.waiting ≡ false) }
    {
        let array = decoder::zeros();
        Accumulator {
            array,
            idx: 0,
            waiting: false,
        }
    }
}

// Feeds a chunk to a state by value.
pub fn feed(state: Accumulator, chunk: &[u8]) -> Fed
    ensures { FeedsBy (feed_of state.array state.idx state.waiting chunk.now) chunk.now result }
{
    let mut array = state.array;
    let idx = state.idx;
    let waiting = state.waiting;
    let mut message = decoder::zeros();
    let got = feed_marked(&mut array, idx, waiting, chunk, &mut message);
    let step = got.step;
    let answer = step.answer;
    let state = Accumulator {
        array,
        idx: step.idx,
        waiting: got.waiting,
    };
    Fed {
        answer,
        state,
        message,
        len: step.len,
        used: step.used,
    }
}

// The same by the bridge's way, which passes the mark through.
pub fn feed_bridge(state: Accumulator, chunk: &[u8]) -> Fed
    ensures { FeedsBy (feed_bridge state.array state.idx state.waiting chunk.now) chunk.now result }
{
    let mut array = state.array;
    let idx = state.idx;
    let waiting = state.waiting;
    let mut message = decoder::zeros();
    let step = feed_table(&mut array, idx, chunk, &mut message);
    let answer = step.answer;
    let state = Accumulator {
        array,
        idx: step.idx,
        waiting,
    };
    Fed {
        answer,
        state,
        message,
        len: step.len,
        used: step.used,
    }
}

// The part of the chunk behind what a feed consumed; empty where that is more than there is.
pub fn rest(chunk: &[u8], fed: Fed) -> &[u8]
    ensures { result.now ≡ drop fed.used chunk.now }
{
    tail::from(chunk, fed.used)
}

// The format's own words, which every crate above shares. What they mean stands in specs/.
#![tactic(auto)]

// Why a call refuses. specs/Answers.antt gives each its number.
#[derive(Clone, Copy)]
pub enum Refusal {
    Trailer,
    Record,
    End,
    BadVarint,
    BadBool,
    BadChar,
    BadUtf8,
    BadOption,
    Variant,
    Room,
    Values,
    Full,
    NotShortest,
}

// Why a call refuses, and where.
#[derive(Clone, Copy)]
pub struct RefusedAt {
    pub why: Refusal,
    pub place: usize,
}

// A table's trailer, of either form: C, D, how many nodes there are, the root and the mark.
#[derive(Clone, Copy)]
pub struct Ending {
    pub c: usize,
    pub d: usize,
    pub n: usize,
    pub root: usize,
    pub mark: usize,
}

// Where a table's parts stand: its node records, its child list of so many places, and its root.
#[derive(Clone, Copy)]
pub struct Layout {
    pub records: usize,
    pub children: usize,
    pub places: usize,
    pub nodes: usize,
    pub root: usize,
}

// What was read of an item's own bytes: whether that was the shortest form, its two words, and how many bytes it took. The
// mark stands first: the compiler keeps an item in registers only so.
#[derive(Clone, Copy)]
pub struct Own {
    pub shortest: bool,
    pub first: u64,
    pub second: u64,
    pub used: usize,
}

// How far a reading came: the bytes read, and the entries made.
#[derive(Clone, Copy)]
pub struct Reached {
    pub place: usize,
    pub count: usize,
}

// Why a reading stops and where, and the entries made.
#[derive(Clone, Copy)]
pub struct Stopped {
    pub why: Refusal,
    pub place: usize,
    pub count: usize,
}

// An item that was taken: its entry, which is two words and the place where it stands, and the place behind it.
#[derive(Clone, Copy)]
pub struct Taken {
    pub first: u64,
    pub second: u64,
    pub at: usize,
    pub place: usize,
}

// One of the append question's two tables.
#[derive(Clone, Copy)]
pub enum Side {
    Old,
    New,
}

// Why the append question gets no answer: which table is refused, why and at which node; or its work area is too short.
#[derive(Clone, Copy)]
pub enum NotAsked {
    Table {
        side: Side,
        why: Refusal,
        place: usize,
    },
    ShortArea,
}

// What a feed of the accumulator answers.
#[derive(Clone, Copy)]
pub enum FeedAnswer {
    Consumed,
    OverFull,
    BadFrame,
    Frame,
    BadState,
}

// An entry's words: how many there are, and where they stand in a value list or a store.
#![tactic(auto)]

ghost use Rattle.std.specs.Prelude.{◌≡◌, ◌+◌, ◌*◌, ◌/◌, ◌%◌, ◌<◌, take, eqb, get_or};
ghost use Rattle.wire.specs.Answers.{words_per, room_of};
ghost use Rattle.entry.specs.Words.{first_at, second_at, place_at, with_entry};

pub const WORDS: usize = 3;

// How many entries so many words have room for.
pub fn room(words: usize) -> usize
    ensures { result ≡ words / words_per }
{
    words / WORDS
}

// Whether so many words are whole entries.
pub fn whole(words: usize) -> bool
    ensures { result ≡ eqb (words % words_per) 0 }
{
    words % WORDS == 0
}

// A word of the entry of a number.
fn word<const K: usize>(words: &[u64], at: usize) -> u64
    requires { (at < room_of words.now) × (K < words_per) }
    ensures { result ≡ get_or words.now (words_per * at + K) 0 }
{
    words[WORDS * at + K]
}

pub fn first(words: &[u64], at: usize) -> u64
    requires { at < room_of words.now }
    ensures { result ≡ first_at words.now at }
{
    word::<0>(words, at)
}

pub fn second(words: &[u64], at: usize) -> u64
    requires { at < room_of words.now }
    ensures { result ≡ second_at words.now at }
{
    word::<1>(words, at)
}

// The place of the item's first byte.
pub fn place(words: &[u64], at: usize) -> u64
    requires { at < room_of words.now }
    ensures { result ≡ place_at words.now at }
{
    word::<2>(words, at)
}

// Stores an item's entry at a number, where the store has words for it.
pub fn put(store: &mut [u64], at: usize, first: u64, second: u64, place: usize)
    ensures { store.new ≡ with_entry first second place at store.old }
{
    if at < room(store.len()) {
        let to = WORDS * at;
        store[to] = first;
        store[to + 1] = second;
        store[to + 2] = place as u64;
    }
}

// The words of the first so many entries; all if there are fewer.
pub fn front(words: &[u64], count: usize) -> &[u64]
    ensures { result.now ≡ take (words_per * count) words.now }
{
    if count <= room(words.len()) {
        let end = WORDS * count;
        return &words[..end];
    }
    words
}

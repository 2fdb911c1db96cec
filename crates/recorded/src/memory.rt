// Lent memory: what the record says must stand in it after a call; and the sum of a list.
ghost use Rattle.std.specs.Prelude.{true, ◌≡◌, length};
ghost use Rattle.std.proofs.lemmas.List.Edits.{sets};
ghost use Rattle.recorded.specs.Fields.{words_of};
ghost use Rattle.recorded.specs.Sums.{sum_of};

use crate::field;

// A list has fewer bytes than this.
const ROOM: usize = 131072;

// Room for a list.
pub fn room() -> [u8; ROOM]
    ensures { 131072 ≡ length result }
{
    [0; ROOM]
}

// Puts a part into memory from a place on, as far as there is room.
pub fn put(memory: &mut [u8], place: usize, part: &[u8])
    ensures { memory.new ≡ sets memory.old place part.now }
{
    let mut at = place;
    for byte in part {
        if memory.len() <= at {
            return;
        }
        memory[at] = *byte;
        at += 1;
    }
}

// Puts the words that a part's bytes stand for in front, as far as there is room.
pub fn put_words(store: &mut [u64], part: &[u8])
    ensures { store.new ≡ sets store.old 0 (words_of part.now) }
{
    let mut rest = part;
    let mut i = 0;
    while i < store.len() {
        if rest.len() < 8 {
            return;
        }
        store[i] = field::number(&rest[..8]);
        rest = &rest[8..];
        i += 1;
    }
}

// Whether two stores hold the same words.
pub fn same_words(a: &[u64], b: &[u64]) -> bool
    ensures { (result ≡ true → a.now ≡ b.now) × (a.now ≡ b.now → result ≡ true) }
{
    a == b
}

// The Adler-32 sum of bytes.
pub fn sum(bytes: &[u8]) -> u64
    ensures { result ≡ sum_of bytes.now }
{
    let mut low: u64 = 1;
    let mut high: u64 = 0;
    for byte in bytes {
        low = (low + *byte as u64) % 65521;
        high = (high + low) % 65521;
    }
    high * 65536 + low
}

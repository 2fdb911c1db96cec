// Two messages side by side: the pairs of places of the items in which they differ, in a lent list.
#![tactic(auto)]

ghost use Rattle.std.specs.Prelude.{◌++◌, ◌≡◌, ◌/◌, ◌≤◌, length, take, drop};
ghost use Rattle.wire.specs.Checked.{Good};
ghost use Rattle.wire.specs.Table.{check as check_of};
ghost use Rattle.desk.specs.Differ.{compares, list_after};
ghost use Rattle.compare.specs.Pairs.{refusal_of, Kept};
ghost use Rattle.compare.specs.Promise.{Compares};

use desk::NotCompared;
use wire::Layout;

// How many bytes the shorter of two messages has at most for so many words of pairs to be kept while both are judged. An item that
// differs has a byte in each, so that the pairs of short messages always find room; and what is kept for is cleared first, so short
// messages get little.
const SHORT: usize = 32;

const SHORT_WORDS: usize = 64;

const MIDDLE: usize = 512;

const MIDDLE_WORDS: usize = 1024;

const LONG_WORDS: usize = 6144;

// Why messages of which one is refused aren't compared: the first one's refusal, or else the second one's.
fn refusal(table: &[u8], one: &[u8], other: &[u8]) -> Result<usize, NotCompared>
    ensures { result ≡ refusal_of (compares table.now one.now other.now) }
{
    let first = reader::skim(table, one, compare_walk::ROOM);
    if let Err(stopped) = first {
        return Err(NotCompared::Refused {
            why: stopped.why,
            place: stopped.place,
        });
    }
    let second = reader::skim(table, other, compare_walk::ROOM);
    if let Err(stopped) = second {
        return Err(NotCompared::OtherRefused {
            why: stopped.why,
            place: stopped.place,
        });
    }
    // Neither is refused, which the walk rules out where this is called.
    Err(NotCompared::Short)
}

// Puts so many words in front of a list.
fn put_front(list: &mut [u64], words: &[u64], count: usize)
    requires { (count ≤ length list.old) × (count ≤ length words.now) }
    ensures { list.new ≡ take count words.now ++ drop count list.old }
{
    for i in 0..count {
        list[i] = words[i];
    }
}

// The pairs of two messages that are both read go into the list, which has room for them: those that were kept, or all by
// going over both messages again.
fn put_pairs(
    table: &[u8],
    l: Layout,
    one: &[u8],
    other: &[u8],
    words: &[u64],
    count: usize,
    list: &mut [u64],
)
    requires table_value { check_of table.now ≡ Good l }
    requires kept { Kept (compares table.now one.now other.now) count words.now }
    requires count_in_bounds { count ≤ length list.old / 2 }
    ensures { list.new ≡ list_after (compares table.now one.now other.now) list.old }
{
    let kept = compare_item::room(words.len());
    if count <= kept {
        let front = compare_item::WORDS * count;
        put_front(list, words, front);
        return;
    }
    let _again = compare_walk::walk_root(table, l, one, other, list);
}

// The same for a good table, with words for the pairs that are kept. Pairs are counted before one of them is written.
fn compare_by(
    table: &[u8],
    l: Layout,
    one: &[u8],
    other: &[u8],
    words: &mut [u64],
    list: &mut [u64],
) -> Result<usize, NotCompared>
    requires { check_of table.now ≡ Good l }
    ensures { Compares (compares table.now one.now other.now) list.old result list.new }
{
    let got = compare_walk::walk_root(table, l, one, other, words);
    let Some(gone) = got else {
        return refusal(table, one, other);
    };
    let count = gone.count;
    if compare_item::room(list.len()) < count {
        return Err(NotCompared::Short);
    }
    put_pairs(table, l, one, other, words, count, list);
    Ok(count)
}

// The same with words of its own, as many as the messages are likely to need.
fn compare_good(
    table: &[u8],
    l: Layout,
    one: &[u8],
    other: &[u8],
    list: &mut [u64],
) -> Result<usize, NotCompared>
    requires { check_of table.now ≡ Good l }
    ensures { Compares (compares table.now one.now other.now) list.old result list.new }
{
    let bytes = one.len().min(other.len());
    if bytes <= SHORT {
        let mut words = [0u64; SHORT_WORDS];
        return compare_by(table, l, one, other, &mut words, list);
    }
    if bytes <= MIDDLE {
        let mut words = [0u64; MIDDLE_WORDS];
        return compare_by(table, l, one, other, &mut words, list);
    }
    let mut words = [0u64; LONG_WORDS];
    compare_by(table, l, one, other, &mut words, list)
}

// Compares two messages by a table: the places of the items that differ go into the list, in front and two words each.
pub fn compare(
    table: &[u8],
    one: &[u8],
    other: &[u8],
    list: &mut [u64],
) -> Result<usize, NotCompared>
    ensures { Compares (compares table.now one.now other.now) list.old result list.new }
{
    let layout = table::check(table)?;
    compare_good(table, layout, one, other, list)
}

// One item of two messages: its own bytes on both sides and whether it differs; and the pair of a differing item's places, which is
// stored where the list has words for it.
#![tactic(auto)]

ghost use Rattle.std.specs.Prelude.{◌≡◌, ◌+◌, ◌/◌, ◌<◌, ◌^◌, length};
ghost use Rattle.wire.specs.Values.{is_pooled};
ghost use Rattle.wire.specs.Table.{kind_of, node_at, record_of};
ghost use Rattle.wire.specs.Reading.{head};
ghost use Rattle.laws.specs.KindRanges.{IsInt, IsInner, IsLeaf};
ghost use Rattle.laws.specs.Tables.{GoodTable};
ghost use Rattle.read_item.specs.Steps.{spot, Inner, own_of};
ghost use Rattle.beside.specs.Meeting.{same_own};
ghost use Rattle.compare_item.specs.Pairs.{with_pair};
ghost use Rattle.compare_item.specs.Items.{Whole, taken_numbers, taken_both, entered_both};

use table::Stretch;
use wire::{Layout, Own, Refusal};

// What was taken on both sides: whether it is the same, and its bytes on each.
#[derive(Clone, Copy)]
pub struct Sides {
    pub same: bool,
    pub used: usize,
    pub other: usize,
}

// What an item that has children leaves to do: whether it is the same, and on each side its bytes and the stretch that follows it.
#[derive(Clone, Copy)]
pub struct Inside {
    pub same: bool,
    pub used: usize,
    pub to: Stretch,
    pub other: usize,
    pub toward: Stretch,
}

// A pair's words.
pub const WORDS: usize = 2;

// ---- pairs

// How many pairs so many words have room for.
pub fn room(words: usize) -> usize
    ensures { result ≡ words / 2 }
{
    words / WORDS
}

// Stores a pair of places at a number, where the list has words for it.
pub fn put(list: &mut [u64], at: usize, one: usize, other: usize)
    ensures { list.new ≡ with_pair one other at list.old }
{
    if at < room(list.len()) {
        let to = WORDS * at;
        list[to] = one as u64;
        list[to + 1] = other as u64;
    }
}

// ---- when two leaves differ

// Whether a kind is one of texts or of bytes.
fn is_pooled(number: u8) -> bool
    ensures { result ≡ is_pooled (kind_of number) }
{
    matches!(number, 12..=13)
}

// Texts and bytes compare by content, other leaves by their first words.
fn same_leaf(number: u8, mine: Own, part: &[u8], its: Own, other: &[u8]) -> bool
    requires whole { Whole (kind_of number) mine part.now }
    requires whole_2 { Whole (kind_of number) its other.now }
    ensures { result ≡ same_own (kind_of number) mine part.now its other.now }
{
    if is_pooled(number) {
        let end = mine.used;
        let from = end - mine.second as usize;
        let behind = its.used;
        let start = behind - its.second as usize;
        return part[from..end] == other[start..behind];
    }
    mine.first == its.first
}

// ---- a leaf on both sides

// Two numbers that were read: their first words decide.
fn both(got: Result<Own, Refusal>, there: Result<Own, Refusal>) -> Option<Sides>
    ensures { result ≡ taken_numbers got there }
{
    let Ok(a) = got else {
        return None;
    };
    let Ok(b) = there else {
        return None;
    };
    Some(Sides {
        same: a.first == b.first,
        used: a.used,
        other: b.used,
    })
}

// An integer. It is taken by the leaves' functions and not by `read_item::int_bytes`: two signed numbers are the same if they are
// so before they are unzigzagged.
fn take_int(number: u8, part: &[u8], other: &[u8]) -> Option<Sides>
    requires { IsInt number }
    ensures { result ≡ taken_both (kind_of number) part.now other.now (head (kind_of number) 0 0 part.now) (head (kind_of number) 0 0 other.now) }
{
    match number {
        2 | 6 => both(varint::take_u16(part), varint::take_u16(other)),
        3 | 7 => both(varint::take_u32(part), varint::take_u32(other)),
        1 => both(fixint::take8(part, true), fixint::take8(other, true)),
        5 => both(fixint::take8(part, false), fixint::take8(other, false)),
        _ => both(
            varint::take::<varint::U64>(part),
            varint::take::<varint::U64>(other),
        ),
    }
}

// Another leaf.
fn take_other(number: u8, part: &[u8], place: usize, other: &[u8], there: usize) -> Option<Sides>
    requires leaf { IsLeaf number }
    requires part_bound { place + length part.now < 2 ^ 64 }
    requires other_bound { there + length other.now < 2 ^ 64 }
    ensures { result ≡ taken_both (kind_of number) part.now other.now (head (kind_of number) 0 place part.now) (head (kind_of number) 0 there other.now) }
{
    let got = leaf::take(number, part, place);
    let Ok(a) = got else {
        return None;
    };
    let beside = leaf::take(number, other, there);
    let Ok(b) = beside else {
        return None;
    };
    let same = same_leaf(number, a, part, b, other);
    Some(Sides {
        same,
        used: a.used,
        other: b.used,
    })
}

// Any leaf that stands at `place` of the first message and at `there` of the second.
pub fn take_leaf(number: u8, part: &[u8], place: usize, other: &[u8], there: usize) -> Option<Sides>
    requires leaf { IsLeaf number }
    requires part_bound { place + length part.now < 2 ^ 64 }
    requires other_bound { there + length other.now < 2 ^ 64 }
    ensures { result ≡ taken_both (kind_of number) part.now other.now (head (kind_of number) 0 place part.now) (head (kind_of number) 0 there other.now) }
{
    match number {
        1..=8 => take_int(number, part, other),
        _ => take_other(number, part, place, other, there),
    }
}

// ---- an item that has children

// The own bytes of an item that has children: so many, of which a variant's number names one, as `read_item` takes them.
fn inner_bytes(number: u8, count: usize, part: &[u8], place: usize) -> Result<Own, Refusal>
    requires { IsInner number }
    ensures { result ≡ head (kind_of number) count place part.now }
{
    match number {
        15 => leaf::take_flag(part, Refusal::BadOption),
        18 => Ok(Own {
            first: 0,
            second: 0,
            used: 0,
            shortest: true,
        }),
        19 => read_item::known(count, varint::take_u32(part)),
        _ => varint::take::<varint::U64>(part),
    }
}

// Both sides' own bytes at `place` of the first message and at `there` of the second, and what follows them.
pub fn enter(
    table: &[u8],
    l: Layout,
    node: usize,
    number: u8,
    part: &[u8],
    place: usize,
    other: &[u8],
    there: usize,
) -> Option<Inside>
    requires good_table { GoodTable table.now l }
    requires node_lt_nodes { node < l.nodes }
    requires inner { Inner table.now l node number }
    ensures { result ≡ entered_both l node (node_at table.now (record_of l node)) (own_of head (node_at table.now (record_of l node)) (spot part.now place)) (own_of head (node_at table.now (record_of l node)) (spot other.now there)) }
{
    let width = table::child_count(table, l, node);
    let got = inner_bytes(number, width, part, place);
    let Ok(a) = got else {
        return None;
    };
    let beside = inner_bytes(number, width, other, there);
    let Ok(b) = beside else {
        return None;
    };
    let from = table::first_child(table, l, node);
    let to = table::follow(number, a.first, from, width);
    let toward = table::follow(number, b.first, from, width);
    let alike = a.first == b.first;
    Some(Inside {
        same: alike,
        used: a.used,
        to,
        other: b.used,
        toward,
    })
}

// Messages that stand end to end: the key fields of a table's root, and the next message with its key. What a message is stands
// in desk's specs/Messages.antt.
#![tactic(auto)]

ghost use Rattle.std.specs.Prelude.{◌≡◌, ◌+◌, ◌-◌, ◌*◌, ◌^◌, ◌<◌, ◌≤◌, length, eqb};
ghost use Rattle.wire.specs.Numbers.{varint};
ghost use Rattle.wire.specs.Table.{u16_at, node_at, record_of};
ghost use Rattle.wire.specs.Reading.{head, reading, fit};
ghost use Rattle.laws.specs.Tables.{GoodTable};
ghost use Rattle.table.specs.Parts.{Falls, row_step};
ghost use Rattle.read_item.specs.Steps.{spot};
ghost use Rattle.reader.specs.Steps.{answer_behind};
ghost use Rattle.desk.specs.Path.{most_entries};
ghost use Rattle.desk.specs.Rows.{same_key as same_key_of};
ghost use Rattle.desk.specs.Messages.{next_of};
ghost use Rattle.messages.specs.Fields.{keys_of, key_width, IsKey, KeyedBy, Ordered, Finds, key_by, HasKey};
ghost use Rattle.messages.specs.Steps.{skimmed, Words, Begins, BeginsOr, next_answer};
ghost use Rattle.messages.specs.Past.{LongestOf, PastVarint, PastInts, PastKey, PastKeys};

use desk::Key;
use varint::Width;
use wire::{Layout, Own, Reached, Refusal, RefusedAt};

// A word that was read, the place behind it, and the entries made.
#[derive(Clone, Copy)]
pub struct Took {
    pub word: u64,
    pub place: usize,
    pub count: usize,
}

// A message: its key and its length.
#[derive(Clone, Copy)]
pub struct Message {
    pub key: Key,
    pub len: usize,
}

// Each message is read as with a store of so many entries, of which the root's own is the first.
const ROOM: usize = 16384;

// The key fields of a root struct, in the order in which they stand. Its fields' numbers stand at `from`: some before the first key
// field, some between the two, some behind the second. The store's is ahead of the product's, or behind it.
#[derive(Clone, Copy)]
pub struct Fields {
    pub from: usize,
    pub before: usize,
    pub between: usize,
    pub behind: usize,
    pub ahead: bool,
}

// A key field's word and the place behind it.
#[derive(Clone, Copy)]
pub struct Taken {
    pub word: u64,
    pub behind: usize,
}

// A message's key, read up to the field behind its second key field: that place, and the entries made.
#[derive(Clone, Copy)]
pub struct Begun {
    pub key: Key,
    pub place: usize,
    pub count: usize,
}

// The longest varint of an integer of a kind: its bytes, and the largest byte that may stand last in so many.
#[derive(Clone, Copy)]
pub struct Longest {
    pub most: usize,
    pub last: u64,
}

// ---- one message

// A row of items skimmed. Most have none in front of a key field, and need no call.
fn skim(
    table: &[u8],
    l: Layout,
    from: usize,
    width: usize,
    part: &[u8],
    place: usize,
    made: usize,
) -> Result<Reached, RefusedAt>
    requires good_table { GoodTable table.now l }
    requires falls { Falls table.now from width l.nodes }
    requires part_bound { place + length part.now < 2 ^ 64 }
    ensures { result ≡ skimmed (answer_behind made (fit (most_entries - made) (row_step (reading head) table.now l from width (spot part.now place)))) }
{
    if width == 0 {
        return Ok(Reached { place, count: made });
    }
    reader::skim_row(table, l, l.nodes, from, width, part, place, ROOM, made).map_err(
        |stopped| RefusedAt {
            why: stopped.why,
            place: stopped.place,
        },
    )
}

// The own bytes of a key field: a store's, which is narrow, or a product's.
fn take_word(narrow: bool, part: &[u8]) -> Result<Own, Refusal>
    ensures { result ≡ varint (key_width narrow) part.now }
{
    if narrow {
        return varint::take_u32(part);
    }
    varint::take::<varint::U64>(part)
}

// The key field behind so many others, from where a reading stands.
fn key_word(
    table: &[u8],
    l: Layout,
    from: usize,
    before: usize,
    narrow: bool,
    part: &[u8],
    place: usize,
    made: usize,
) -> Result<Took, RefusedAt>
    requires good_table { GoodTable table.now l }
    requires falls { Falls table.now from (before + 1) l.nodes }
    requires key { IsKey table.now l (from + 2 * before) narrow }
    requires part_bound { place + length part.now < 2 ^ 64 }
    ensures { Words table.now l from before made (spot part.now place) result }
{
    let Reached { place: at, count } = skim(table, l, from, before, part, place, made)?;
    if ROOM <= count {
        return Err(RefusedAt {
            why: Refusal::Room,
            place: at,
        });
    }
    let used = at - place;
    match take_word(narrow, &part[used..]) {
        Err(why) => Err(RefusedAt { why, place: at }),
        Ok(own) => Ok(Took {
            word: own.first,
            place: at + own.used,
            count: count + 1,
        }),
    }
}

// The key of two words, by which of them stands first.
fn key_by(ahead: bool, one: u64, other: u64) -> Key
    ensures { result ≡ key_by ahead one other }
{
    if ahead {
        return Key {
            store: one,
            product: other,
        };
    }
    Key {
        store: other,
        product: one,
    }
}

// The key of a message, whatever its fields are.
fn begin_any(table: &[u8], l: Layout, f: Fields, part: &[u8]) -> Result<Begun, RefusedAt>
    requires { KeyedBy table.now l f }
    ensures { BeginsOr table.now l f part.now result }
{
    let one = key_word(table, l, f.from, f.before, f.ahead, part, 0, 1)?;
    let from = f.from + 2 * (f.before + 1);
    let rest = &part[one.place..];
    let other = key_word(
        table, l, from, f.between, !f.ahead, rest, one.place, one.count,
    )?;
    Ok(Begun {
        key: key_by(f.ahead, one.word, other.word),
        place: other.place,
        count: other.count,
    })
}

// The message of a key: what stands behind the key fields is skimmed.
fn finish(
    table: &[u8],
    l: Layout,
    f: Fields,
    part: &[u8],
    begun: Begun,
) -> Result<Message, RefusedAt>
    requires keyed_by { KeyedBy table.now l f }
    requires begins { Begins table.now l f part.now begun }
    ensures { result ≡ next_answer (next_of (keys_of table.now l f) part.now) }
{
    let from = f.from + 2 * (f.before + f.between + 2);
    let rest = &part[begun.place..];
    let end = skim(table, l, from, f.behind, rest, begun.place, begun.count)?;
    Ok(Message {
        key: begun.key,
        len: end.place,
    })
}

// ---- one message of integers

// The longest varint of an integer of a kind, a byte being a varint of one.
fn longest_of(number: u8) -> Option<Longest>
    ensures { LongestOf number result }
{
    match number {
        1 | 5 => Some(Longest { most: 1, last: 255 }),
        2 | 6 => Some(Longest {
            most: varint::U16::MOST,
            last: varint::U16::LAST,
        }),
        3 | 7 => Some(Longest {
            most: varint::U32::MOST,
            last: varint::U32::LAST,
        }),
        4 | 8 => Some(Longest {
            most: varint::U64::MOST,
            last: varint::U64::LAST,
        }),
        _ => None,
    }
}

// The place behind a varint.
fn past_varint(longest: Longest, part: &[u8], at: usize) -> Option<usize>
    requires { 1 ≤ longest.most }
    ensures { PastVarint longest part.now at result }
{
    let mut i = at;
    let mut left = longest.most;
    while i < part.len() {
        let b = part[i] as u64;
        let next = i + 1;
        if left == 1 {
            if b <= longest.last {
                return Some(next);
            }
            return None;
        }
        if b < 128 {
            return Some(next);
        }
        left = left - 1;
        i = next;
    }
    None
}

// The place behind a row of integers, of which only the ends are looked for, and not the values.
fn past_ints(
    table: &[u8],
    l: Layout,
    from: usize,
    width: usize,
    part: &[u8],
    at: usize,
) -> Option<usize>
    requires good_table { GoodTable table.now l }
    requires falls { Falls table.now from width l.nodes }
    requires at_inside { at ≤ length part.now }
    ensures { PastInts table.now l from width part.now at result }
{
    let mut to = at;
    for i in 0..width {
        let c = table::u16_at(table, from + 2 * i);
        let longest = longest_of(table::kind_at(table, l, c))?;
        to = past_varint(longest, part, to)?;
    }
    Some(to)
}

// A key field of any size.
fn past_long_key(narrow: bool, part: &[u8], at: usize) -> Option<Taken>
    requires { at ≤ length part.now }
    ensures { PastKey narrow part.now at result }
{
    let Ok(own) = take_word(narrow, &part[at..]) else {
        return None;
    };
    Some(Taken {
        word: own.first,
        behind: at + own.used,
    })
}

// A key field. One of at most four bytes is the same for a store and for a product, and most are.
fn past_key(narrow: bool, part: &[u8], at: usize) -> Option<Taken>
    requires { at ≤ length part.now }
    ensures { PastKey narrow part.now at result }
{
    if 4 <= part.len() - at {
        let a = part[at] as u64;
        if a < 128 {
            let behind = at + 1;
            return Some(Taken { word: a, behind });
        }
        let b = part[at + 1] as u64;
        let two = a % 128 + 128 * (b % 128);
        if b < 128 {
            let behind = at + 2;
            return Some(Taken { word: two, behind });
        }
        let c = part[at + 2] as u64;
        let three = two + 16384 * (c % 128);
        if c < 128 {
            let behind = at + 3;
            return Some(Taken {
                word: three,
                behind,
            });
        }
        let d = part[at + 3] as u64;
        let four = three + 2097152 * (d % 128);
        if d < 128 {
            let behind = at + 4;
            return Some(Taken { word: four, behind });
        }
    }
    past_long_key(narrow, part, at)
}

// The key of a message, where the fields in front of the key fields are integers. It is inlined: as a call it would take `next`
// 214 instructions for a T, and not 180.
#[inline(always)]
fn begin(table: &[u8], l: Layout, f: Fields, part: &[u8]) -> Option<Begun>
    requires { KeyedBy table.now l f }
    ensures { PastKeys table.now l f part.now result }
{
    let first = past_ints(table, l, f.from, f.before, part, 0)?;
    let one = past_key(f.ahead, part, first)?;
    let from = f.from + 2 * (f.before + 1);
    let second = past_ints(table, l, from, f.between, part, one.behind)?;
    let other = past_key(!f.ahead, part, second)?;
    Some(Begun {
        key: key_by(f.ahead, one.word, other.word),
        place: other.behind,
        count: f.before + f.between + 3,
    })
}

// The next message of some bytes. Most are integers alone, and are gone through without a call; where another field stands behind
// the key fields, the rest is skimmed, and where one stands in front of them, all is read anew.
pub fn next(table: &[u8], l: Layout, f: Fields, part: &[u8]) -> Result<Message, RefusedAt>
    requires { KeyedBy table.now l f }
    ensures { result ≡ next_answer (next_of (keys_of table.now l f) part.now) }
{
    let made = f.before + f.between + 3 + f.behind;
    if made <= ROOM {
        if let Some(begun) = begin(table, l, f, part) {
            let from = f.from + 2 * (f.before + f.between + 2);
            if let Some(len) = past_ints(table, l, from, f.behind, part, begun.place) {
                return Ok(Message {
                    key: begun.key,
                    len,
                });
            }
            return finish(table, l, f, part, begun);
        }
    }
    let begun = begin_any(table, l, f, part)?;
    finish(table, l, f, part, begun)
}

// Whether two keys are the same.
pub fn same_key(a: Key, b: Key) -> bool
    ensures { result ≡ same_key_of a b }
{
    if a.store == b.store {
        return a.product == b.product;
    }
    false
}

// Whether the message that some bytes begin with has a key. What stands behind its key fields is not read.
pub fn has_key(table: &[u8], l: Layout, f: Fields, part: &[u8], key: Key) -> bool
    requires { KeyedBy table.now l f }
    ensures { HasKey (keys_of table.now l f) part.now key result }
{
    let front = f.before + f.between + 2;
    if front < ROOM {
        if let Some(begun) = begin(table, l, f, part) {
            return same_key(begun.key, key);
        }
    }
    match begin_any(table, l, f, part) {
        Ok(begun) => same_key(begun.key, key),
        Err(_) => false,
    }
}

// ---- the key fields

// The key fields in the order in which they stand, of so many fields whose numbers stand at `from`.
fn in_order(from: usize, width: usize, store: usize, product: usize) -> Fields
    requires store_lt_width { (store < width) × (product < width) }
    requires fact { store ≡ product → ⊥ }
    ensures { Ordered from width store product result }
{
    if store < product {
        return Fields {
            from,
            before: store,
            between: product - store - 1,
            behind: width - product - 1,
            ahead: true,
        };
    }
    Fields {
        from,
        before: product,
        between: store - product - 1,
        behind: width - store - 1,
        ahead: false,
    }
}

// Whether the field whose number stands at an offset is of a kind.
fn is_of(table: &[u8], l: Layout, at: usize, number: u8) -> bool
    requires good_table { GoodTable table.now l }
    requires falls { Falls table.now at 1 l.nodes }
    ensures { result ≡ eqb (node_at table.now (record_of l (u16_at table.now at))).number number }
{
    let c = table::u16_at(table, at);
    table::kind_at(table, l, c) == number
}

// The key fields that a good table's root has at two places.
pub fn fields_of(table: &[u8], l: Layout, store: usize, product: usize) -> Option<Fields>
    requires { GoodTable table.now l }
    ensures { Finds table.now l store product result }
{
    let root = l.root;
    let number = table::kind_at(table, l, root);
    if number != 18 {
        return None;
    }
    let width = table::child_count(table, l, root);
    let from = table::first_child(table, l, root);
    if width <= store {
        return None;
    }
    if width <= product {
        return None;
    }
    if !is_of(table, l, from + 2 * store, 7) {
        return None;
    }
    if !is_of(table, l, from + 2 * product, 8) {
        return None;
    }
    let fields = in_order(from, width, store, product);
    Some(fields)
}

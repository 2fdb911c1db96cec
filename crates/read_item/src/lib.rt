// One item of a message: its own bytes, and its entry, which is stored where the store has words for it.
#![tactic(auto)]

ghost use Rattle.std.specs.Prelude.{◌≡◌, ◌+◌, ◌^◌, ◌<◌, length};
ghost use Rattle.wire.specs.Table.{kind_of, node_at, record_of};
ghost use Rattle.wire.specs.Reading.{known as known_of, head as head_of, judged, head_by};
ghost use Rattle.laws.specs.KindRanges.{IsInner};
ghost use Rattle.laws.specs.Tables.{GoodTable};
ghost use Rattle.leaf.specs.Leaves.{leaf_take_at};
ghost use Rattle.read_item.specs.Steps.{spot, Inner, own_of, Ends, TakesInt, Puts, Enters};

use table::Stretch;
use wire::{Layout, Own, Reached, Refusal, Stopped};

// What follows the entry of an item that has children, and the item's own bytes.
#[derive(Clone, Copy)]
pub struct Inside {
    pub to: Stretch,
    pub used: usize,
}

// ---- an item's own bytes

// A variant's number is one of the table's.
pub fn known(count: usize, got: Result<Own, Refusal>) -> Result<Own, Refusal>
    ensures { result ≡ known_of count got }
{
    let Ok(own) = got else {
        return got;
    };
    if own.first < count as u64 {
        return Ok(own);
    }
    Err(Refusal::Variant)
}

// The own bytes of an item that has children: so many, of which a variant's number names one. It is inlined, since a call costs
// more than most of them.
#[inline(always)]
fn head_bytes(number: u8, count: usize, part: &[u8], place: usize) -> Result<Own, Refusal>
    requires { IsInner number }
    ensures { result ≡ head_of (kind_of number) count place part.now }
{
    match number {
        15 => leaf::take_flag(part, Refusal::BadOption),
        18 => Ok(Own {
            first: 0,
            second: 0,
            used: 0,
            shortest: true,
        }),
        19 => known(count, varint::take_u32(part)),
        _ => varint::take::<varint::U64>(part),
    }
}

// ---- forms

// An item as a strict reading takes it, or as the plain one does: a form that isn't the shortest is refused, after every other
// refusal of the item.
fn judge(strict: bool, got: Result<Own, Refusal>) -> Result<Own, Refusal>
    ensures { result ≡ judged strict got }
{
    let Ok(own) = got else {
        return got;
    };
    let longer = !own.shortest;
    if strict && longer {
        return Err(Refusal::NotShortest);
    }
    Ok(own)
}

// ---- a leaf

// An integer, read plainly, or that the kind is another's. It is apart from other leaves and from strict readings, since it is
// what most messages hold most of; and it is inlined, since a call costs more than most integers.
#[inline(always)]
pub fn int_bytes(number: u8, part: &[u8]) -> Option<Result<Own, Refusal>>
    ensures { TakesInt number part.now result }
{
    match number {
        1 => Some(fixint::take8(part, true)),
        2 => Some(leaf::unzigzag(varint::take_u16(part))),
        3 => Some(leaf::unzigzag(varint::take_u32(part))),
        4 => Some(leaf::unzigzag(varint::take::<varint::U64>(part))),
        5 => Some(fixint::take8(part, false)),
        6 => Some(varint::take_u16(part)),
        7 => Some(varint::take_u32(part)),
        8 => Some(varint::take::<varint::U64>(part)),
        _ => None,
    }
}

// The entry of a leaf, or why it is refused.
pub fn lay(
    got: Result<Own, Refusal>,
    place: usize,
    store: &mut [u64],
    made: usize,
) -> Result<Reached, Stopped>
    requires ends { Ends place got }
    requires made_bound { made + 1 < 2 ^ 64 }
    ensures { Puts place made store.old got result store.new }
{
    match got {
        Err(why) => Err(Stopped {
            why,
            place,
            count: made,
        }),
        Ok(own) => {
            entry::put(store, made, own.first, own.second, place);
            let behind = place + own.used;
            Ok(Reached {
                place: behind,
                count: made + 1,
            })
        }
    }
}

// Any leaf: its entry, or why it is refused.
pub fn read_leaf(
    strict: bool,
    number: u8,
    part: &[u8],
    place: usize,
    store: &mut [u64],
    made: usize,
) -> Result<Reached, Stopped>
    requires part_bound { place + length part.now < 2 ^ 64 }
    requires made_bound { made + 1 < 2 ^ 64 }
    ensures { Puts place made store.old (judged strict (leaf_take_at number place part.now)) result store.new }
{
    let got = judge(strict, leaf::take(number, part, place));
    lay(got, place, store, made)
}

// ---- an item that has children

// The entry of an item that has children, and what follows.
#[inline(always)]
pub fn enter(
    strict: bool,
    table: &[u8],
    l: Layout,
    node: usize,
    number: u8,
    part: &[u8],
    place: usize,
    store: &mut [u64],
    made: usize,
) -> Result<Inside, Refusal>
    requires good_table { GoodTable table.now l }
    requires node_lt_nodes { node < l.nodes }
    requires inner { Inner table.now l node number }
    ensures { Enters l node (node_at table.now (record_of l node)) place made store.old (own_of (head_by strict) (node_at table.now (record_of l node)) (spot part.now place)) result store.new }
{
    let width = table::child_count(table, l, node);
    let own = judge(strict, head_bytes(number, width, part, place))?;
    entry::put(store, made, own.first, own.second, place);
    let from = table::first_child(table, l, node);
    let to = table::follow(number, own.first, from, width);
    Ok(Inside { to, used: own.used })
}

// Two messages gone over at once, item by item, which is also the judge of both readings: the pairs of the places of the items in which
// they differ go into a list, as far as it has words for them.
#![tactic(auto)]

ghost use Rattle.std.specs.Prelude.{false, ◌≡◌, ◌+◌, ◌-◌, ◌^◌, ◌≤◌, ◌<◌, length};
ghost use Rattle.wire.specs.Checked.{Good};
ghost use Rattle.wire.specs.Table.{check, shape_of};
ghost use Rattle.wire.specs.Walk.{walk};
ghost use Rattle.wire.specs.Reading.{head, front, reading, fit};
ghost use Rattle.laws.specs.Tables.{GoodTable};
ghost use Rattle.table.specs.Parts.{Falls, node_step, row_step, rounds_step};
ghost use Rattle.read_item.specs.Steps.{spot, Inner};
ghost use Rattle.desk.specs.Path.{most_entries};
ghost use Rattle.desk.specs.Differ.{beside};
ghost use Rattle.beside.specs.Meeting.{meeting};
ghost use Rattle.compare_walk.specs.Steps.{lay, Gives, Begins, passed};

use table::{Stretch, Way};
use wire::Layout;

// How far both messages are gone over: the place in each, the entries that each made, and the pairs.
#[derive(Clone, Copy)]
pub struct Gone {
    pub one: usize,
    pub other: usize,
    pub ones: usize,
    pub others: usize,
    pub count: usize,
}

// A round's front: the entries that are made then.
#[derive(Clone, Copy)]
pub struct Heads {
    pub ones: usize,
    pub others: usize,
}

// Each message is read as with a store of so many entries.
pub const ROOM: usize = 16384;

// ---- rounds

fn begin(headed: bool, ones: usize, others: usize) -> Option<Heads>
    ensures { Begins most_entries ones others headed result }
{
    if !headed {
        return Some(Heads { ones, others });
    }
    if ROOM <= ones || ROOM <= others {
        return None;
    }
    Some(Heads {
        ones: ones + 1,
        others: others + 1,
    })
}

// ---- behind an item that differs

// Each side goes alone over what follows the item there.
fn pass(
    table: &[u8],
    l: Layout,
    node: usize,
    to: Stretch,
    part: &[u8],
    toward: Stretch,
    other: &[u8],
    at: Gone,
) -> Option<Gone>
    requires good_table { GoodTable table.now l }
    requires node_le_nodes { node ≤ l.nodes }
    requires falls { Falls table.now to.from to.width node }
    requires falls_2 { Falls table.now toward.from toward.width node }
    requires part_bound { at.one + length part.now < 2 ^ 64 }
    requires other_bound { at.other + length other.now < 2 ^ 64 }
    ensures { result ≡ passed at.ones at.others at.count (fit (most_entries - at.ones) (rounds_step (reading head) table.now l to.rounds false to.from to.width (spot part.now at.one))) (fit (most_entries - at.others) (rounds_step (reading head) table.now l toward.rounds false toward.from toward.width (spot other.now at.other))) }
{
    let got = reader::skim_rounds(
        table, l, node, to.rounds, to.from, to.width, part, at.one, ROOM, at.ones,
    );
    let Ok(mine) = got else {
        return None;
    };
    let beside = reader::skim_rounds(
        table,
        l,
        node,
        toward.rounds,
        toward.from,
        toward.width,
        other,
        at.other,
        ROOM,
        at.others,
    );
    let Ok(its) = beside else {
        return None;
    };
    Some(Gone {
        one: mine.place,
        other: its.place,
        ones: mine.count,
        others: its.count,
        count: at.count,
    })
}

// ---- the cycle: an item, one with children, the rounds of the stretch that follows it, one round

// An item. Each side wants room before its bytes are looked at.
#[cycle(walk_inner_walk_item_walk_rounds_walk_stretch)]
fn walk_item(
    table: &[u8],
    l: Layout,
    node: usize,
    part: &[u8],
    other: &[u8],
    at: Gone,
    list: &mut [u64],
) -> Option<Gone>
    requires good_table { GoodTable table.now l }
    requires node_lt_nodes { node < l.nodes }
    requires part_bound { at.one + length part.now < 2 ^ 64 }
    requires other_bound { at.other + length other.now < 2 ^ 64 }
    requires count_le_ones { at.count ≤ at.ones }
    ensures { Gives (lay most_entries (node_step meeting table.now l node (beside (spot part.now at.one) (spot other.now at.other))) at.ones at.others at.count list.old) result list.new }
{
    if ROOM <= at.ones || ROOM <= at.others {
        return None;
    }
    let number = table::kind_at(table, l, node);
    if table::is_inner(number) {
        return walk_inner(table, l, node, number, part, other, at, list);
    }
    let taken = compare_item::take_leaf(number, part, at.one, other, at.other)?;
    let one = at.one + taken.used;
    let beyond = at.other + taken.other;
    let ones = at.ones + 1;
    let others = at.others + 1;
    if taken.same {
        return Some(Gone {
            one,
            other: beyond,
            ones,
            others,
            count: at.count,
        });
    }
    compare_item::put(list, at.count, at.one, at.other);
    Some(Gone {
        one,
        other: beyond,
        ones,
        others,
        count: at.count + 1,
    })
}

// An item that has children. It is apart from `walk_item`, so that only here everything is laid out for the call in a cycle.
#[cycle(walk_inner_walk_item_walk_rounds_walk_stretch)]
fn walk_inner(
    table: &[u8],
    l: Layout,
    node: usize,
    number: u8,
    part: &[u8],
    other: &[u8],
    at: Gone,
    list: &mut [u64],
) -> Option<Gone>
    requires good_table { GoodTable table.now l }
    requires node_lt_nodes { node < l.nodes }
    requires inner { Inner table.now l node number }
    requires ones_lt_most_entries { (at.ones < most_entries) × (at.others < most_entries) }
    requires part_bound { at.one + length part.now < 2 ^ 64 }
    requires other_bound { at.other + length other.now < 2 ^ 64 }
    requires count_le_ones { at.count ≤ at.ones }
    ensures { Gives (lay most_entries (node_step meeting table.now l node (beside (spot part.now at.one) (spot other.now at.other))) at.ones at.others at.count list.old) result list.new }
{
    let inside = compare_item::enter(table, l, node, number, part, at.one, other, at.other)?;
    let used = inside.used;
    let past = inside.other;
    let to = inside.to;
    let mut next = Gone {
        one: at.one + used,
        other: at.other + past,
        ones: at.ones + 1,
        others: at.others + 1,
        count: at.count,
    };
    if inside.same {
        let way = table::flat(table, l, node, to.from, to.width);
        return walk_rounds(
            table,
            l,
            node,
            to.rounds,
            way,
            &part[used..],
            &other[past..],
            next,
            list,
        );
    }
    compare_item::put(list, at.count, at.one, at.other);
    next.count = at.count + 1;
    pass(
        table,
        l,
        node,
        to,
        &part[used..],
        inside.toward,
        &other[past..],
        next,
    )
}

#[cycle(walk_inner_walk_item_walk_rounds_walk_stretch)]
fn walk_rounds(
    table: &[u8],
    l: Layout,
    node: usize,
    rounds: u64,
    way: Way,
    part: &[u8],
    other: &[u8],
    at: Gone,
    list: &mut [u64],
) -> Option<Gone>
    requires good_table { GoodTable table.now l }
    requires node_le_nodes { node ≤ l.nodes }
    requires falls { Falls table.now way.from way.width node }
    requires part_bound { at.one + length part.now < 2 ^ 64 }
    requires other_bound { at.other + length other.now < 2 ^ 64 }
    requires count_le_ones { at.count ≤ at.ones }
    ensures { Gives (lay most_entries (rounds_step meeting table.now l rounds way.headed way.from way.width (beside (spot part.now at.one) (spot other.now at.other))) at.ones at.others at.count list.old) result list.new }
{
    let mut rest = part;
    let mut left = other;
    let mut now = at;
    let mut turns = rounds;
    while 0 < turns {
        let heads = begin(way.headed, now.ones, now.others)?;
        let begun = Gone {
            one: now.one,
            other: now.other,
            ones: heads.ones,
            others: heads.others,
            count: now.count,
        };
        let gone = walk_stretch(table, l, node, way.from, way.width, rest, left, begun, list)?;
        let used = gone.one - now.one;
        rest = &rest[used..];
        let past = gone.other - now.other;
        left = &left[past..];
        now = gone;
        turns = turns - 1;
    }
    Some(now)
}

#[cycle(walk_inner_walk_item_walk_rounds_walk_stretch)]
fn walk_stretch(
    table: &[u8],
    l: Layout,
    node: usize,
    from: usize,
    width: usize,
    part: &[u8],
    other: &[u8],
    at: Gone,
    list: &mut [u64],
) -> Option<Gone>
    requires good_table { GoodTable table.now l }
    requires node_le_nodes { node ≤ l.nodes }
    requires falls { Falls table.now from width node }
    requires part_bound { at.one + length part.now < 2 ^ 64 }
    requires other_bound { at.other + length other.now < 2 ^ 64 }
    requires count_le_ones { at.count ≤ at.ones }
    ensures { Gives (lay most_entries (row_step meeting table.now l from width (beside (spot part.now at.one) (spot other.now at.other))) at.ones at.others at.count list.old) result list.new }
{
    let mut rest = part;
    let mut left = other;
    let mut now = at;
    let mut child = from;
    let mut turns = width;
    while 0 < turns {
        let c = table::u16_at(table, child);
        let gone = walk_item(table, l, c, rest, left, now, list)?;
        let used = gone.one - now.one;
        rest = &rest[used..];
        let past = gone.other - now.other;
        left = &left[past..];
        now = gone;
        child = child + 2;
        turns = turns - 1;
    }
    Some(now)
}

// ---- the root

// Both messages as a good table's root has them.
pub fn walk_root(
    table: &[u8],
    l: Layout,
    one: &[u8],
    other: &[u8],
    list: &mut [u64],
) -> Option<Gone>
    requires { check table.now ≡ Good l }
    ensures { Gives (lay most_entries (walk meeting (shape_of table.now l) (beside (front one.now) (front other.now))) 0 0 0 list.old) result list.new }
{
    let root = table::root_at(table);
    let way = table::flat(table, l, l.nodes, root, 1);
    let start = Gone {
        one: 0,
        other: 0,
        ones: 0,
        others: 0,
        count: 0,
    };
    walk_rounds(table, l, l.nodes, 1, way, one, other, start, list)
}

// A value list gone through by a table: its entries are judged, and their bytes put behind one another.
#![tactic(auto)]

ghost use Rattle.std.specs.Prelude.{◌≡◌, ◌<◌, ◌≤◌};
ghost use Rattle.wire.specs.Checked.{Good};
ghost use Rattle.wire.specs.Table.{kind_of, node_at, record_of, shape_of};
ghost use Rattle.wire.specs.Table.{check as check_of};
ghost use Rattle.wire.specs.Writing.{writing};
ghost use Rattle.wire.specs.Writing.{write as write_shape};
ghost use Rattle.wire.specs.Answers.{room_of};
ghost use Rattle.laws.specs.Tables.{GoodTable};
ghost use Rattle.laws.specs.KindRanges.{IsInner, IsLeaf};
ghost use Rattle.table.specs.Parts.{Falls, node_step, row_step, rounds_step};
ghost use Rattle.write_list.specs.Steps.{entries, write_leaf, Sure, Keeps, Gives, Enters, Begins, Leads, Leaf, Reaches, Nothing};

use table::Stretch;
use varint::Width;
use wire::Layout;

// How far a list is put: its next entry, and the bytes.
#[derive(Clone, Copy)]
pub struct Done {
    pub at: usize,
    pub used: usize,
}

// The number of an entry that no value has.
#[derive(Clone, Copy)]
pub struct Misfit {
    pub at: usize,
}

// What follows the entry of an item that has children, and the bytes.
#[derive(Clone, Copy)]
pub struct Inside {
    pub to: Stretch,
    pub used: usize,
}

// How far a list was put: the next entry, how many bytes there are now, and where the numbers that are left stand, and how many.
#[derive(Clone, Copy)]
pub struct Ahead {
    pub at: usize,
    pub used: usize,
    pub child: usize,
    pub left: usize,
}

// ---- an entry

// A leaf's, which nothing follows. Of one that no value has nothing is put.
fn leaf_item(
    number: u8,
    words: &[u64],
    at: usize,
    pool: &[u8],
    out: &mut [u8],
    used: usize,
    judged: bool,
) -> Result<Done, Misfit>
    requires leaf { IsLeaf number }
    requires at_bound { at < room_of words.now }
    requires sure { Sure judged (write_leaf (kind_of number) pool.now (entries words.now at)) }
    ensures { Gives (write_leaf (kind_of number) pool.now (entries words.now at)) words.now used out.old result out.new × Keeps out.old result out.new }
{
    let first = entry::first(words, at);
    let second = entry::second(words, at);
    let ok = write_item::fits_leaf(number, first, second, pool, judged);
    if ok {
        let more = write_item::put_leaf(number, first, second, pool, out, used);
        let next = at + 1;
        return Ok(Done {
            at: next,
            used: more,
        });
    }
    Err(Misfit { at })
}

// That of an item with children: its own bytes, and what follows.
fn enter(
    table: &[u8],
    l: Layout,
    node: usize,
    number: u8,
    words: &[u64],
    at: usize,
    pool: &[u8],
    out: &mut [u8],
    used: usize,
    judged: bool,
) -> Option<Inside>
    requires good_table { GoodTable table.now l }
    requires node_lt_nodes { node < l.nodes }
    requires number_value { number ≡ (node_at table.now (record_of l node)).number }
    requires inner { IsInner number }
    requires at_bound { at < room_of words.now }
    requires sure { Sure judged (node_step (writing pool.now) table.now l node (entries words.now at)) }
    ensures { Enters (node_step (writing pool.now) table.now l node (entries words.now at)) table.now l pool.now node words.now at used out.old result out.new }
{
    let first = entry::first(words, at);
    let second = entry::second(words, at);
    let width = table::child_count(table, l, node);
    let ok = write_item::fits_inner(number, width, first, second, judged);
    if ok {
        let more = write_item::put_inner(number, first, out, used);
        let from = table::first_child(table, l, node);
        let to = table::follow(number, first, from, width);
        return Some(Inside { to, used: more });
    }
    None
}

// ---- rounds

// A struct's entry has no bytes.
fn begin(headed: bool, words: &[u64], at: usize) -> Option<usize>
    ensures { Begins headed words.now at result }
{
    if headed {
        if entry::room(words.len()) <= at {
            return None;
        }
        let first = entry::first(words, at);
        let second = entry::second(words, at);
        if first != 0 {
            return None;
        }
        if second != 0 {
            return None;
        }
        let next = at + 1;
        return Some(next);
    }
    Some(at)
}

// ---- the cycle: an item, one with children, the rounds of the stretch that follows it, one round

// An item. An integer that has its places, as most have, is put here without a call.
#[cycle(inner_item_put_item_put_rounds_put_stretch)]
fn put_item(
    table: &[u8],
    l: Layout,
    node: usize,
    words: &[u64],
    at: usize,
    pool: &[u8],
    out: &mut [u8],
    used: usize,
    judged: bool,
) -> Result<Done, Misfit>
    requires good_table { GoodTable table.now l }
    requires node_lt_nodes { node < l.nodes }
    requires sure { Sure judged (node_step (writing pool.now) table.now l node (entries words.now at)) }
    ensures { Gives (node_step (writing pool.now) table.now l node (entries words.now at)) words.now used out.old result out.new }
{
    let number = table::kind_at(table, l, node);
    let room = output::places(out.len(), used, varint::U64::MOST);
    if write_item::is_ready(number, words, at, room) {
        let first = entry::first(words, at);
        let more = write_item::put_ready(number, first, out, used);
        let next = at + 1;
        return Ok(Done {
            at: next,
            used: more,
        });
    }
    if entry::room(words.len()) <= at {
        return Err(Misfit { at });
    }
    if table::is_inner(number) {
        return inner_item(table, l, node, number, words, at, pool, out, used, judged);
    }
    leaf_item(number, words, at, pool, out, used, judged)
}

// The call of the cycle stands here and not in `put_item`, where each leaf would pay for copies of what it is lent.
#[cycle(inner_item_put_item_put_rounds_put_stretch)]
fn inner_item(
    table: &[u8],
    l: Layout,
    node: usize,
    number: u8,
    words: &[u64],
    at: usize,
    pool: &[u8],
    out: &mut [u8],
    used: usize,
    judged: bool,
) -> Result<Done, Misfit>
    requires good_table { GoodTable table.now l }
    requires node_lt_nodes { node < l.nodes }
    requires number_value { number ≡ (node_at table.now (record_of l node)).number }
    requires inner { IsInner number }
    requires at_bound { at < room_of words.now }
    requires sure { Sure judged (node_step (writing pool.now) table.now l node (entries words.now at)) }
    ensures { Gives (node_step (writing pool.now) table.now l node (entries words.now at)) words.now used out.old result out.new }
{
    let Some(inside) = enter(table, l, node, number, words, at, pool, out, used, judged) else {
        return Err(Misfit { at });
    };
    let to = inside.to;
    let next = at + 1;
    if to.rounds == 0 {
        return Ok(Done {
            at: next,
            used: inside.used,
        });
    }
    let way = table::flat(table, l, node, to.from, to.width);
    put_rounds(
        table,
        l,
        node,
        to.rounds,
        way.headed,
        way.from,
        way.width,
        words,
        next,
        pool,
        out,
        inside.used,
        judged,
    )
}

#[cycle(inner_item_put_item_put_rounds_put_stretch)]
fn put_rounds(
    table: &[u8],
    l: Layout,
    node: usize,
    rounds: u64,
    headed: bool,
    from: usize,
    width: usize,
    words: &[u64],
    at: usize,
    pool: &[u8],
    out: &mut [u8],
    used: usize,
    judged: bool,
) -> Result<Done, Misfit>
    requires good_table { GoodTable table.now l }
    requires node_le_nodes { node ≤ l.nodes }
    requires falls { Falls table.now from width node }
    requires sure { Sure judged (rounds_step (writing pool.now) table.now l rounds headed from width (entries words.now at)) }
    ensures { Gives (rounds_step (writing pool.now) table.now l rounds headed from width (entries words.now at)) words.now used out.old result out.new }
{
    let mut i = at;
    let mut n = used;
    let mut left = rounds;
    while 0 < left {
        let Some(start) = begin(headed, words, i) else {
            return Err(Misfit { at: i });
        };
        let got = put_stretch(
            table, l, node, from, width, words, start, pool, out, n, judged,
        );
        let Ok(done) = got else {
            return got;
        };
        i = done.at;
        n = done.used;
        left = left - 1;
    }
    Ok(Done { at: i, used: n })
}

#[cycle(inner_item_put_item_put_rounds_put_stretch)]
fn put_stretch(
    table: &[u8],
    l: Layout,
    node: usize,
    from: usize,
    width: usize,
    words: &[u64],
    at: usize,
    pool: &[u8],
    out: &mut [u8],
    used: usize,
    judged: bool,
) -> Result<Done, Misfit>
    requires good_table { GoodTable table.now l }
    requires node_le_nodes { node ≤ l.nodes }
    requires falls { Falls table.now from width node }
    requires sure { Sure judged (row_step (writing pool.now) table.now l from width (entries words.now at)) }
    ensures { Gives (row_step (writing pool.now) table.now l from width (entries words.now at)) words.now used out.old result out.new }
{
    let mut i = at;
    let mut n = used;
    let mut child = from;
    let mut left = width;
    while 0 < left {
        let c = table::u16_at(table, child);
        let got = put_item(table, l, c, words, i, pool, out, n, judged);
        let Ok(done) = got else {
            return got;
        };
        i = done.at;
        n = done.used;
        child = child + 2;
        left = left - 1;
    }
    Ok(Done { at: i, used: n })
}

// ---- a list from where it was put on

// The row that is left of a list, behind what was put.
pub fn put_rest(
    table: &[u8],
    l: Layout,
    ahead: Ahead,
    words: &[u64],
    pool: &[u8],
    out: &mut [u8],
    judged: bool,
) -> Result<Done, Misfit>
    requires good_table { GoodTable table.now l }
    requires falls { Falls table.now ahead.child ahead.left l.nodes }
    requires sure { Sure judged (row_step (writing pool.now) table.now l ahead.child ahead.left (entries words.now ahead.at)) }
    ensures { Gives (row_step (writing pool.now) table.now l ahead.child ahead.left (entries words.now ahead.at)) words.now ahead.used out.old result out.new }
{
    put_rounds(
        table,
        l,
        l.nodes,
        1,
        false,
        ahead.child,
        ahead.left,
        words,
        ahead.at,
        pool,
        out,
        ahead.used,
        judged,
    )
}

// Nothing of a list is put: what is left is the root, whose number stands in the trailer.
pub fn put_nothing(table: &[u8], l: Layout) -> Ahead
    requires { check_of table.now ≡ Good l }
    ensures { Nothing table.now l result }
{
    let from = table::root_at(table);
    Ahead {
        at: 0,
        used: 0,
        child: from,
        left: 1,
    }
}

// ---- leaves in front, which need no cycle

// The integers in front of a row, up to an entry that no value has or one that might not have its places.
fn put_ints(
    table: &[u8],
    l: Layout,
    from: usize,
    width: usize,
    words: &[u64],
    at: usize,
    out: &mut [u8],
) -> Ahead
    requires good_table { GoodTable table.now l }
    requires falls { Falls table.now from width l.nodes }
    ensures { Leads table.now l from width words.now at out.old result out.new }
{
    let mut i = at;
    let mut n: usize = 0;
    let mut field = from;
    let mut left = width;
    while 0 < left {
        let c = table::u16_at(table, field);
        let number = table::kind_at(table, l, c);
        let room = output::places(out.len(), n, varint::U64::MOST);
        if !write_item::is_ready(number, words, i, room) {
            return Ahead {
                at: i,
                used: n,
                child: field,
                left,
            };
        }
        let first = entry::first(words, i);
        n = write_item::put_ready(number, first, out, n);
        i = i + 1;
        field = field + 2;
        left = left - 1;
    }
    Ahead {
        at: i,
        used: n,
        child: field,
        left,
    }
}

// A text's or bytes', by no more calls than these take: a name is what most lists have beside numbers.
fn put_content(
    number: u8,
    words: &[u64],
    at: usize,
    pool: &[u8],
    out: &mut [u8],
    used: usize,
) -> Result<Done, Misfit>
    requires le_number { (12 ≤ number) × (number ≤ 13) }
    requires at_bound { at < room_of words.now }
    ensures { Leaf number words.now at pool.now used out.old result out.new }
{
    let first = entry::first(words, at);
    let second = entry::second(words, at);
    let Some(more) = write_item::put_pooled(number, first, second, pool, out, used) else {
        return Err(Misfit { at });
    };
    let next = at + 1;
    Ok(Done {
        at: next,
        used: more,
    })
}

// The entry of a kind's number, where it is a leaf's.
fn put_leaf(
    number: u8,
    words: &[u64],
    at: usize,
    pool: &[u8],
    out: &mut [u8],
    used: usize,
) -> Result<Done, Misfit>
    requires { number < 32 }
    ensures { Leaf number words.now at pool.now used out.old result out.new }
{
    if entry::room(words.len()) <= at {
        return Err(Misfit { at });
    }
    if table::is_inner(number) {
        return Err(Misfit { at });
    }
    match number {
        12..=13 => put_content(number, words, at, pool, out, used),
        _ => leaf_item(number, words, at, pool, out, used, false),
    }
}

// The leaves behind what was put of a row, up to another item or an entry that no value has.
fn put_leaves(
    table: &[u8],
    l: Layout,
    ahead: Ahead,
    words: &[u64],
    pool: &[u8],
    out: &mut [u8],
) -> Ahead
    requires good_table { GoodTable table.now l }
    requires falls { Falls table.now ahead.child ahead.left l.nodes }
    ensures { Reaches pool.now table.now l (row_step (writing pool.now) table.now l ahead.child ahead.left (entries words.now ahead.at)) words.now ahead.used out.old result out.new }
{
    let mut i = ahead.at;
    let mut n = ahead.used;
    let mut field = ahead.child;
    let mut left = ahead.left;
    while 0 < left {
        let c = table::u16_at(table, field);
        let number = table::kind_at(table, l, c);
        let Ok(done) = put_leaf(number, words, i, pool, out, n) else {
            return Ahead {
                at: i,
                used: n,
                child: field,
                left,
            };
        };
        i = done.at;
        n = done.used;
        field = field + 2;
        left = left - 1;
    }
    Ahead {
        at: i,
        used: n,
        child: field,
        left,
    }
}

// The leaves in front of the whole list. None are left if it has nothing else.
pub fn put_front(table: &[u8], l: Layout, words: &[u64], pool: &[u8], out: &mut [u8]) -> Ahead
    requires { check_of table.now ≡ Good l }
    ensures { Reaches pool.now table.now l (write_shape (shape_of table.now l) pool.now (entries words.now 0)) words.now 0 out.old result out.new }
{
    let from = table::root_at(table);
    let way = table::flat(table, l, l.nodes, from, 1);
    let begun = begin(way.headed, words, 0);
    let Some(start) = begun else {
        return put_nothing(table, l);
    };
    let ints = put_ints(table, l, way.from, way.width, words, start, out);
    if ints.left == 0 {
        return ints;
    }
    put_leaves(table, l, ints, words, pool, out)
}

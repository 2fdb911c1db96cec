// Reading a message by a table with its open items in a lent list: no function calls itself, so the stack stays small.
#![tactic(auto)]

ghost use Rattle.std.specs.Prelude.{◌≡◌, not, ◌∷◌, ◌+◌, ◌*◌, ◌^◌, ◌<◌, ◌≤◌, length, replicate};
ghost use Rattle.wire.specs.Tests.{both};
ghost use Rattle.wire.specs.Shape.{depth as chain_of};
ghost use Rattle.wire.specs.Table.{check as check_of, u16_at, kind_of, node_at, record_of};
ghost use Rattle.wire.specs.Reading.{head as head_of, judged, head_by};
ghost use Rattle.wire.specs.Answers.{read_by, reads, reads_strict, room_of};
ghost use Rattle.laws.specs.KindRanges.{IsInner};
ghost use Rattle.laws.specs.Tables.{node_shape, GoodTable};
ghost use Rattle.leaf.specs.Leaves.{leaf_take_at};
ghost use Rattle.table.specs.Parts.{Falls};
ghost use Rattle.read_item.specs.Lay.{laid, lay};
ghost use Rattle.read_item.specs.Steps.{spot, Inner, own_of, TakesInt, Puts, Enters};
ghost use Rattle.reader.specs.Steps.{Gives};
ghost use Rattle.desk.specs.Listed.{open_rest, list_words, ReadsListed};
ghost use Rattle.open.specs.Items.{held_at, width_word, holding, helds_of, leaving, unread, pending, Chain};
ghost use Rattle.open.specs.Steps.{Leads, Rounds, Works, Opens};

use desk::NotOpened;
use read_item::Inside;
use wire::{Layout, Own, Reached, Refusal, RefusedAt, Stopped};

// How far a step came: so many are left, of a row's numbers or of the open items.
#[derive(Clone, Copy)]
pub struct Turned {
    pub left: usize,
    pub place: usize,
    pub count: usize,
}

// The words that the list must have: four for each of 256 open items.
const WORDS: usize = 1024;

// An open item: the `width` numbers at `from` in the table are its children's; of this round the last `left` are unread, and
// so many rounds follow, each of them headed by a struct's entry or not.
#[derive(Clone, Copy)]
pub struct Held {
    pub from: usize,
    pub width: usize,
    pub headed: bool,
    pub left: usize,
    pub rounds: u64,
}

// ---- the list

fn held_at(list: &[u64], i: usize) -> Held
    requires { 4 * i + 4 ≤ length list.now }
    ensures { result ≡ held_at list.now i }
{
    let at = 4 * i;
    let from = list[at];
    let head = list[at + 1];
    let left = list[at + 2];
    let rounds = list[at + 3];
    Held {
        from: from as usize,
        width: (head / 2) as usize,
        headed: head % 2 == 1,
        left: left as usize,
        rounds,
    }
}

// Twice the width, and one where rounds are headed.
fn width_word(width: usize, headed: bool) -> u64
    requires { width < 2 ^ 63 }
    ensures { result ≡ width_word width headed }
{
    let twice = 2 * (width as u64);
    if headed {
        return twice + 1;
    }
    twice
}

fn hold(list: &mut [u64], i: usize, f: Held)
    requires i_in_bounds { 4 * i + 4 ≤ length list.old }
    requires width_bound { f.width < 2 ^ 63 }
    ensures { list.new ≡ holding list.old i f }
{
    let at = 4 * i;
    list[at] = f.from as u64;
    list[at + 1] = width_word(f.width, f.headed);
    list[at + 2] = f.left as u64;
    list[at + 3] = f.rounds;
}

fn clear(list: &mut [u64])
    ensures { list.new ≡ replicate (length list.old) 0 }
{
    list.fill(0);
}

// ---- a leaf

// A leaf that has room: its entry, or why it is refused.
fn read_leaf(
    strict: bool,
    number: u8,
    part: &[u8],
    place: usize,
    store: &mut [u64],
    made: usize,
) -> Result<Reached, Stopped>
    requires part_bound { place + length part.now < 2 ^ 64 }
    requires made_bound { made + 1 < 2 ^ 64 }
    ensures { Puts place made store.old (judged strict (leaf_take_at number place part.now)) result store.new }
{
    if !strict {
        if let Some(item) = read_item::int_bytes(number, part) {
            return read_item::lay(item, place, store, made);
        }
    }
    read_item::read_leaf(strict, number, part, place, store, made)
}

// ---- the steps

// The leaves in front of a row of children's numbers. An item wants room before its bytes are looked at.
fn read_leaves(
    strict: bool,
    table: &[u8],
    l: Layout,
    from: usize,
    width: usize,
    part: &[u8],
    place: usize,
    room: usize,
    store: &mut [u64],
    made: usize,
) -> Result<Turned, Stopped>
    requires good_table { GoodTable table.now l }
    requires falls { Falls table.now from width l.nodes }
    requires part_bound { place + length part.now < 2 ^ 64 }
    ensures { Leads (head_by strict) room table.now l from width part.now place made store.old result store.new }
{
    let mut rest = part;
    let mut at = place;
    let mut sofar = made;
    let mut child = from;
    let mut left = width;
    while 0 < left {
        if room <= sofar {
            return Err(Stopped {
                why: Refusal::Room,
                place: at,
                count: sofar,
            });
        }
        let c = table::u16_at(table, child);
        let number = table::kind_at(table, l, c);
        if table::is_inner(number) {
            return Ok(Turned {
                left,
                place: at,
                count: sofar,
            });
        }
        let Reached { place: next, count } = read_leaf(strict, number, rest, at, store, sofar)?;
        let used = next - at;
        rest = &rest[used..];
        at = next;
        sofar = count;
        child = child + 2;
        left = left - 1;
    }
    Ok(Turned {
        left: 0,
        place: at,
        count: sofar,
    })
}

// An item that has children: its entry, and what follows it held open above the first so many, if anything does.
fn open_item(
    strict: bool,
    table: &[u8],
    l: Layout,
    node: usize,
    part: &[u8],
    place: usize,
    room: usize,
    store: &mut [u64],
    made: usize,
    list: &mut [u64],
    depth: usize,
) -> Result<Turned, Stopped>
    requires good_table { GoodTable table.now l }
    requires node_lt_nodes { node < l.nodes }
    requires inner { IsInner (node_at table.now (record_of l node)).number }
    requires part_bound { place + length part.now < 2 ^ 64 }
    requires made_lt_room { made < room }
    requires list_len { length list.old ≡ 1024 }
    requires chain { Chain table.now l (chain_of (node_shape table.now l node)) (helds_of list.old depth) }
    ensures { Opens (head_by strict) room table.now l node (helds_of list.old depth) part.now place made store.old result store.new list.new }
{
    let number = table::kind_at(table, l, node);
    match read_item::enter(strict, table, l, node, number, part, place, store, made) {
        Err(why) => Err(Stopped {
            why,
            place,
            count: made,
        }),
        Ok(inside) => {
            let to = inside.to;
            let after = place + inside.used;
            let next = made + 1;
            // Nothing is held for no rounds, nor for a struct without fields, whose children would be below the longest chain.
            if to.rounds == 0 || to.width == 0 {
                return Ok(Turned {
                    left: depth,
                    place: after,
                    count: next,
                });
            }
            let way = table::flat(table, l, node, to.from, to.width);
            hold(
                list,
                depth,
                Held {
                    from: way.from,
                    width: way.width,
                    headed: way.headed,
                    left: 0,
                    rounds: to.rounds,
                },
            );
            let deeper = depth + 1;
            Ok(Turned {
                left: deeper,
                place: after,
                count: next,
            })
        }
    }
}

// The next child of the open item i, the first of so many that are left: it is opened above the item, which is held without it.
fn next_child(
    strict: bool,
    table: &[u8],
    l: Layout,
    top: Held,
    left: usize,
    part: &[u8],
    place: usize,
    room: usize,
    store: &mut [u64],
    made: usize,
    list: &mut [u64],
    i: usize,
) -> Result<Turned, Stopped>
    requires good_table { GoodTable table.now l }
    requires part_bound { place + length part.now < 2 ^ 64 }
    requires made_lt_room { made < room }
    requires left_nonzero { 0 < left }
    requires inner { IsInner (node_at table.now (record_of l (u16_at table.now (unread (leaving top left top.rounds))))).number }
    requires list_len { length list.old ≡ 1024 }
    requires chain { Chain table.now l 1 (leaving top left top.rounds ∷ helds_of list.old i) }
    ensures { Works (head_by strict) room table.now l (leaving top left top.rounds ∷ helds_of list.old i) part.now place made store.old result store.new list.new }
{
    let child = top.from + 2 * (top.width - left);
    let c = table::u16_at(table, child);
    let others = left - 1;
    hold(
        list,
        i,
        Held {
            from: top.from,
            width: top.width,
            headed: top.headed,
            left: others,
            rounds: top.rounds,
        },
    );
    let depth = i + 1;
    open_item(
        strict, table, l, c, part, place, room, store, made, list, depth,
    )
}

// The next round of the open item i, which has one.
fn next_round(
    top: Held,
    place: usize,
    room: usize,
    store: &mut [u64],
    made: usize,
    list: &mut [u64],
    i: usize,
) -> Result<Turned, Stopped>
    requires i_in_bounds { 4 * i + 4 ≤ length list.old }
    requires width_bound { top.width < 2 ^ 63 }
    requires rounds_nonzero { 0 < top.rounds }
    ensures { Rounds room top i place made store.old list.old result store.new list.new }
{
    let Some(ready) = reader::begin(top.headed, place, room, store, made) else {
        return Err(Stopped {
            why: Refusal::Room,
            place,
            count: made,
        });
    };
    let rounds = top.rounds - 1;
    hold(
        list,
        i,
        Held {
            from: top.from,
            width: top.width,
            headed: top.headed,
            left: top.width,
            rounds,
        },
    );
    let depth = i + 1;
    Ok(Turned {
        left: depth,
        place,
        count: ready,
    })
}

// One turn of the open items, of which there is one: the leaves in front of what the last one leaves of its round, and then its
// next child, its next round, or nothing more of it.
fn turn(
    strict: bool,
    table: &[u8],
    l: Layout,
    part: &[u8],
    place: usize,
    room: usize,
    store: &mut [u64],
    made: usize,
    list: &mut [u64],
    depth: usize,
) -> Result<Turned, Stopped>
    requires good_table { GoodTable table.now l }
    requires part_bound { place + length part.now < 2 ^ 64 }
    requires list_len { length list.old ≡ 1024 }
    requires depth_nonzero { 0 < depth }
    requires chain { Chain table.now l 1 (helds_of list.old depth) }
    ensures { Works (head_by strict) room table.now l (helds_of list.old depth) part.now place made store.old result store.new list.new }
{
    let i = depth - 1;
    let top = held_at(list, i);
    let child = top.from + 2 * (top.width - top.left);
    let Turned {
        left,
        place: at,
        count,
    } = read_leaves(
        strict, table, l, child, top.left, part, place, room, store, made,
    )?;
    let used = at - place;
    if 0 < left {
        return next_child(
            strict,
            table,
            l,
            top,
            left,
            &part[used..],
            at,
            room,
            store,
            count,
            list,
            i,
        );
    }
    if 0 < top.rounds {
        return next_round(top, at, room, store, count, list, i);
    }
    Ok(Turned {
        left: i,
        place: at,
        count,
    })
}

// The open items worked off, of which the first is in the list.
fn work_off(
    strict: bool,
    table: &[u8],
    l: Layout,
    message: &[u8],
    room: usize,
    store: &mut [u64],
    list: &mut [u64],
) -> Result<Reached, Stopped>
    requires good_table { GoodTable table.now l }
    requires list_len { length list.old ≡ 1024 }
    requires chain { Chain table.now l 1 (helds_of list.old 1) }
    ensures { Gives (lay room (pending (head_by strict) table.now l (helds_of list.old 1) (spot message.now 0)) 0 store.old) result store.new }
{
    let mut rest = message;
    let mut at = 0;
    let mut sofar = 0;
    let mut depth = 1;
    while 0 < depth {
        let Turned { left, place, count } = turn(
            strict, table, l, rest, at, room, store, sofar, list, depth,
        )?;
        let used = place - at;
        rest = &rest[used..];
        at = place;
        sofar = count;
        depth = left;
    }
    Ok(Reached {
        place: at,
        count: sofar,
    })
}

// ---- the public calls

// A reading, strict or not, with a list that has the words.
fn read_with(
    strict: bool,
    table: &[u8],
    message: &[u8],
    store: &mut [u64],
    list: &mut [u64],
) -> Result<Reached, Stopped>
    requires { length list.old ≡ list_words }
    ensures { Gives (laid (read_by strict (check_of table.now) table.now (room_of store.old) message.now) 0 store.old) result store.new }
{
    let room = entry::room(store.len());
    match table::check(table) {
        Err(bad) => Err(Stopped {
            why: bad.why,
            place: bad.place,
            count: 0,
        }),
        Ok(layout) => {
            let root = table::root_at(table);
            let way = table::flat(table, layout, layout.nodes, root, 1);
            hold(
                list,
                0,
                Held {
                    from: way.from,
                    width: way.width,
                    headed: way.headed,
                    left: 0,
                    rounds: 1,
                },
            );
            work_off(strict, table, layout, message, room, store, list)
        }
    }
}

// The same in the list's first words, so many as it must have, which are cleared after it.
fn read_and_clear(
    strict: bool,
    table: &[u8],
    message: &[u8],
    store: &mut [u64],
    list: &mut [u64],
    words: usize,
) -> Result<Reached, NotOpened>
    requires { (list_words ≡ words) × (words ≤ length list.old) }
    ensures { ReadsListed (read_by strict (check_of table.now) table.now (room_of store.old) message.now) store.old list.old result store.new list.new }
{
    let got = read_with(strict, table, message, store, &mut list[0..words]);
    clear(&mut list[0..words]);
    match got {
        Ok(reached) => Ok(reached),
        Err(stop) => Err(NotOpened::Refused {
            why: stop.why,
            place: stop.place,
            count: stop.count,
        }),
    }
}

// The same with any list.
fn read_listed(
    strict: bool,
    table: &[u8],
    message: &[u8],
    store: &mut [u64],
    list: &mut [u64],
) -> Result<Reached, NotOpened>
    ensures { ReadsListed (read_by strict (check_of table.now) table.now (room_of store.old) message.now) store.old list.old result store.new list.new }
{
    if WORDS <= list.len() {
        return read_and_clear(strict, table, message, store, list, WORDS);
    }
    Err(NotOpened::ShortList)
}

// Reads a message by a table as `reader::read` does, with a lent list of open items, four words each. A list with room for
// fewer than 256 is refused before all else, and nothing changes; else its first 1,024 words come back zero.
pub fn read(
    table: &[u8],
    message: &[u8],
    store: &mut [u64],
    list: &mut [u64],
) -> Result<Reached, NotOpened>
    ensures { ReadsListed (reads table.now message.now store.old) store.old list.old result store.new list.new }
{
    read_listed(false, table, message, store, list)
}

// The same, as `reader::read_strict` does.
pub fn read_strict(
    table: &[u8],
    message: &[u8],
    store: &mut [u64],
    list: &mut [u64],
) -> Result<Reached, NotOpened>
    ensures { ReadsListed (reads_strict table.now message.now store.old) store.old list.old result store.new list.new }
{
    read_listed(true, table, message, store, list)
}

// The unread bytes, from the same message and its answer.
pub fn rest<'a>(message: &'a [u8], answer: Result<Reached, NotOpened>) -> &'a [u8]
    ensures { result.now ≡ open_rest message.now answer }
{
    match answer {
        Ok(reached) => tail::from(message, reached.place),
        Err(_) => &message[0..0],
    }
}

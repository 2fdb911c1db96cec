// Reading a message by a table.
#![tactic(auto)]

ghost use Rattle.std.specs.Prelude.{false, ◌≡◌, ◌+◌, ◌-◌, ◌^◌, ◌<◌, ◌≤◌, length};
ghost use Rattle.wire.specs.Table.{check as check_of};
ghost use Rattle.wire.specs.Reading.{head, head_by, reading, fit};
ghost use Rattle.wire.specs.Answers.{read_by, reads, reads_strict, skims, rest_of};
ghost use Rattle.laws.specs.Answered.{Reads};
ghost use Rattle.laws.specs.Tables.{GoodTable};
ghost use Rattle.table.specs.Parts.{Falls, node_step, row_step, rounds_step};
ghost use Rattle.read_item.specs.Lay.{laid, lay};
ghost use Rattle.read_item.specs.Steps.{spot, Inner};
ghost use Rattle.reader.specs.Steps.{Gives, answer_behind, Begins};

use read_item::Inside;
use wire::{Layout, Reached, Refusal, Stopped};

// ---- rounds

pub fn begin(
    headed: bool,
    place: usize,
    room: usize,
    store: &mut [u64],
    made: usize,
) -> Option<usize>
    ensures { Begins room place headed store.old made result store.new }
{
    if headed {
        if made < room {
            entry::put(store, made, 0, 0, place);
            let ready = made + 1;
            return Some(ready);
        }
        return None;
    }
    Some(made)
}

// ---- the cycle: an item, one with children, the rounds of the stretch that follows it, one round

// An item. It wants room before its bytes are looked at.
#[cycle(read_inner_read_item_read_rounds_read_stretch)]
fn read_item(
    strict: bool,
    table: &[u8],
    l: Layout,
    node: usize,
    part: &[u8],
    place: usize,
    room: usize,
    store: &mut [u64],
    made: usize,
) -> Result<Reached, Stopped>
    requires good_table { GoodTable table.now l }
    requires node_lt_nodes { node < l.nodes }
    requires part_bound { place + length part.now < 2 ^ 64 }
    ensures { Gives (lay room (node_step (reading (head_by strict)) table.now l node (spot part.now place)) made store.old) result store.new }
{
    if room <= made {
        return Err(Stopped {
            why: Refusal::Room,
            place,
            count: made,
        });
    }
    let number = table::kind_at(table, l, node);
    if !strict {
        if let Some(item) = read_item::int_bytes(number, part) {
            let got = read_item::lay(item, place, store, made);
            // Made anew, so that it does not go through memory with other answers.
            let Ok(read) = got else {
                return got;
            };
            return Ok(read);
        }
    }
    if table::is_inner(number) {
        return read_inner(
            strict, table, l, node, number, part, place, room, store, made,
        );
    }
    read_item::read_leaf(strict, number, part, place, store, made)
}

// An item that has children. It is apart from `read_item`, so that only here everything is laid out for the call in a cycle.
#[cycle(read_inner_read_item_read_rounds_read_stretch)]
fn read_inner(
    strict: bool,
    table: &[u8],
    l: Layout,
    node: usize,
    number: u8,
    part: &[u8],
    place: usize,
    room: usize,
    store: &mut [u64],
    made: usize,
) -> Result<Reached, Stopped>
    requires good_table { GoodTable table.now l }
    requires node_lt_nodes { node < l.nodes }
    requires inner { Inner table.now l node number }
    requires made_lt_room { made < room }
    requires part_bound { place + length part.now < 2 ^ 64 }
    ensures { Gives (lay room (node_step (reading (head_by strict)) table.now l node (spot part.now place)) made store.old) result store.new }
{
    match read_item::enter(strict, table, l, node, number, part, place, store, made) {
        Err(why) => Err(Stopped {
            why,
            place,
            count: made,
        }),
        Ok(inside) => {
            let used = inside.used;
            let to = inside.to;
            let after = place + used;
            let next = made + 1;
            if to.rounds == 0 {
                return Ok(Reached {
                    place: after,
                    count: next,
                });
            }
            let way = table::flat(table, l, node, to.from, to.width);
            read_rounds(
                strict,
                table,
                l,
                node,
                to.rounds,
                way.headed,
                way.from,
                way.width,
                &part[used..],
                after,
                room,
                store,
                next,
            )
        }
    }
}

#[cycle(read_inner_read_item_read_rounds_read_stretch)]
fn read_rounds(
    strict: bool,
    table: &[u8],
    l: Layout,
    node: usize,
    rounds: u64,
    headed: bool,
    from: usize,
    width: usize,
    part: &[u8],
    place: usize,
    room: usize,
    store: &mut [u64],
    made: usize,
) -> Result<Reached, Stopped>
    requires good_table { GoodTable table.now l }
    requires node_le_nodes { node ≤ l.nodes }
    requires falls { Falls table.now from width node }
    requires part_bound { place + length part.now < 2 ^ 64 }
    ensures { Gives (lay room (rounds_step (reading (head_by strict)) table.now l rounds headed from width (spot part.now place)) made store.old) result store.new }
{
    let mut rest = part;
    let mut at = place;
    let mut sofar = made;
    let mut left = rounds;
    while 0 < left {
        let Some(ready) = begin(headed, at, room, store, sofar) else {
            return Err(Stopped {
                why: Refusal::Room,
                place: at,
                count: sofar,
            });
        };
        let got = read_stretch(
            strict, table, l, node, from, width, rest, at, room, store, ready,
        );
        let Ok(read) = got else {
            return got;
        };
        let used = read.place - at;
        rest = &rest[used..];
        at = read.place;
        sofar = read.count;
        left = left - 1;
    }
    Ok(Reached {
        place: at,
        count: sofar,
    })
}

#[cycle(read_inner_read_item_read_rounds_read_stretch)]
fn read_stretch(
    strict: bool,
    table: &[u8],
    l: Layout,
    node: usize,
    from: usize,
    width: usize,
    part: &[u8],
    place: usize,
    room: usize,
    store: &mut [u64],
    made: usize,
) -> Result<Reached, Stopped>
    requires good_table { GoodTable table.now l }
    requires node_le_nodes { node ≤ l.nodes }
    requires falls { Falls table.now from width node }
    requires part_bound { place + length part.now < 2 ^ 64 }
    ensures { Gives (lay room (row_step (reading (head_by strict)) table.now l from width (spot part.now place)) made store.old) result store.new }
{
    let mut rest = part;
    let mut at = place;
    let mut sofar = made;
    let mut child = from;
    let mut left = width;
    while 0 < left {
        let c = table::u16_at(table, child);
        let got = read_item(strict, table, l, c, rest, at, room, store, sofar);
        let Ok(read) = got else {
            return got;
        };
        let used = read.place - at;
        rest = &rest[used..];
        at = read.place;
        sofar = read.count;
        child = child + 2;
        left = left - 1;
    }
    Ok(Reached {
        place: at,
        count: sofar,
    })
}

// ---- the public calls

// A reading with room for so many entries, strict or not. They are stored where the store has words for them.
fn read_with(
    strict: bool,
    table: &[u8],
    message: &[u8],
    room: usize,
    store: &mut [u64],
) -> Result<Reached, Stopped>
    ensures { Gives (laid (read_by strict (check_of table.now) table.now room message.now) 0 store.old) result store.new }
{
    let checked = table::check(table);
    match checked {
        Err(bad) => Err(Stopped {
            why: bad.why,
            place: bad.place,
            count: 0,
        }),
        Ok(layout) => {
            let root = table::root_at(table);
            let way = table::flat(table, layout, layout.nodes, root, 1);
            read_rounds(
                strict,
                table,
                layout,
                layout.nodes,
                1,
                way.headed,
                way.from,
                way.width,
                message,
                0,
                room,
                store,
                0,
            )
        }
    }
}

// Reads a message by a table: where it ends or why it is refused, and the entries made, which stand in front in the store.
// It is not `read_with`, which has several callers and so stays a call.
pub fn read(table: &[u8], message: &[u8], store: &mut [u64]) -> Result<Reached, Stopped>
    ensures { Reads (reads table.now message.now store.old) store.old result store.new }
{
    let checked = table::check(table);
    match checked {
        Err(bad) => Err(Stopped {
            why: bad.why,
            place: bad.place,
            count: 0,
        }),
        Ok(layout) => {
            let root = table::root_at(table);
            let way = table::flat(table, layout, layout.nodes, root, 1);
            let room = entry::room(store.len());
            // A root that is a leaf is read here: laying all out for the cycle takes longer than most leaves. It is not read by
            // `read_item::read_leaf`, for which the message would be laid out once more; where there is no room, the cycle says so.
            if !way.headed {
                let node = table::u16_at(table, root);
                let number = table::kind_at(table, layout, node);
                if 0 < room && !table::is_inner(number) {
                    let item = leaf::take(number, message, 0);
                    return read_item::lay(item, 0, store, 0);
                }
            }
            read_rounds(
                false,
                table,
                layout,
                layout.nodes,
                1,
                way.headed,
                way.from,
                way.width,
                message,
                0,
                room,
                store,
                0,
            )
        }
    }
}

// The same, for a message whose items are all in their shortest forms: the first that isn't is refused, after every other
// refusal of that item.
pub fn read_strict(table: &[u8], message: &[u8], store: &mut [u64]) -> Result<Reached, Stopped>
    ensures { Reads (reads_strict table.now message.now store.old) store.old result store.new }
{
    let room = entry::room(store.len());
    read_with(true, table, message, room, store)
}

// What a read answers with a store that has room for so many entries, where none is at hand.
pub fn skim(table: &[u8], message: &[u8], room: usize) -> Result<Reached, Stopped>
    ensures { result ≡ skims table.now message.now room }
{
    let mut words: [u64; 1] = [0; 1];
    read_with(false, table, message, room, &mut words[0..0])
}

// The items of a row of children's numbers, so many times over, skimmed: where they end or why they are refused, and the entries
// made with those before. It is for questions that go through a message by themselves.
pub fn skim_rounds(
    table: &[u8],
    l: Layout,
    node: usize,
    rounds: u64,
    from: usize,
    width: usize,
    part: &[u8],
    place: usize,
    room: usize,
    made: usize,
) -> Result<Reached, Stopped>
    requires good_table { GoodTable table.now l }
    requires node_le_nodes { node ≤ l.nodes }
    requires falls { Falls table.now from width node }
    requires part_bound { place + length part.now < 2 ^ 64 }
    ensures { result ≡ answer_behind made (fit (room - made) (rounds_step (reading head) table.now l rounds false from width (spot part.now place))) }
{
    let mut words: [u64; 1] = [0; 1];
    read_rounds(
        false,
        table,
        l,
        node,
        rounds,
        false,
        from,
        width,
        part,
        place,
        room,
        &mut words[0..0],
        made,
    )
}

// The same, once.
pub fn skim_row(
    table: &[u8],
    l: Layout,
    node: usize,
    from: usize,
    width: usize,
    part: &[u8],
    place: usize,
    room: usize,
    made: usize,
) -> Result<Reached, Stopped>
    requires good_table { GoodTable table.now l }
    requires node_le_nodes { node ≤ l.nodes }
    requires falls { Falls table.now from width node }
    requires part_bound { place + length part.now < 2 ^ 64 }
    ensures { result ≡ answer_behind made (fit (room - made) (row_step (reading head) table.now l from width (spot part.now place))) }
{
    skim_rounds(table, l, node, 1, from, width, part, place, room, made)
}

// The unread bytes, from the same message and its answer.
pub fn rest<'a>(message: &'a [u8], answer: Result<Reached, Stopped>) -> &'a [u8]
    ensures { result.now ≡ rest_of message.now answer }
{
    match answer {
        Ok(reached) => tail::from(message, reached.place),
        Err(_) => &message[0..0],
    }
}

// One item of a message by its path: whether the path leads to one, by the table alone; and then along the path.
#![tactic(auto)]

ghost use Rattle.std.specs.Prelude.{◌≡◌, true, [], ◌+◌, ◌*◌, ◌-◌, ◌^◌, ◌<◌, length};
ghost use Rattle.wire.specs.Table.{u16_at, kind_of, node_at, record_of, shape_of};
ghost use Rattle.wire.specs.Reading.{front};
ghost use Rattle.laws.specs.Tables.{node_kind, node_count, node_child, node_shape, GoodTable};
ghost use Rattle.table.specs.Parts.{Falls};
ghost use Rattle.read_item.specs.Steps.{spot};
ghost use Rattle.desk.specs.Path.{is_field, is_passed, is_there, most_entries, leads as leads_of, finds};
ghost use Rattle.along.specs.Seek.{seek as seek_of};
ghost use Rattle.find.specs.Steps.{is_some, Inward, Owns, seek_behind, seek_node, Passes, Arrives};

use desk::{Found, NotFound};
use wire::{Layout, Own, Refusal};

// Every message is read as with a store of so many entries.
const ROOM: usize = 16384;

// Where the way along a path stands: a node, the place of its item, and how many entries are made.
#[derive(Clone, Copy)]
struct Passed {
    node: usize,
    place: usize,
    made: usize,
}

// ---- where a path leads

// A kind that a path ends at: 0 to 13 or 20 to 31.
fn is_field(number: u8) -> bool
    ensures { result ≡ is_field (kind_of number) }
{
    matches!(number, 0..=13 | 20..=31)
}

// A kind that a path goes through: an option or a struct.
fn is_passed(number: u8) -> bool
    ensures { result ≡ is_passed (kind_of number) }
{
    number == 15 || number == 18
}

// The child of a node at a position.
fn child_at(table: &[u8], l: Layout, node: usize, which: usize) -> usize
    requires good_table { GoodTable table.now l }
    requires node_lt_nodes { node < l.nodes }
    requires which_bound { which < node_count (node_at table.now (record_of l node)) }
    ensures { result ≡ node_child table.now l node (node_at table.now (record_of l node)) which }
{
    let from = table::first_child(table, l, node);
    table::u16_at(table, from + 2 * which)
}

// Whether a path leads to an item that can be found.
fn leads(table: &[u8], l: Layout, path: &[u64]) -> bool
    requires { GoodTable table.now l }
    ensures { result ≡ is_some (leads_of (shape_of table.now l) path.now) }
{
    let mut node = l.root;
    for which in path {
        let number = table::kind_at(table, l, node);
        if !is_passed(number) {
            return false;
        }
        let width = table::child_count(table, l, node);
        if width as u64 <= *which {
            return false;
        }
        node = child_at(table, l, node, *which as usize);
    }
    let last = table::kind_at(table, l, node);
    is_field(last)
}

// ---- along the path

// The fields in front of the child at a position are skimmed. In front of the first there are none, and no call is made for them.
fn skim_front(
    table: &[u8],
    l: Layout,
    from: usize,
    which: usize,
    part: &[u8],
    at: Passed,
) -> Result<Passed, NotFound>
    requires good_table { GoodTable table.now l }
    requires node_lt_nodes { at.node < l.nodes }
    requires falls { Falls table.now from (which + 1) at.node }
    requires part_bound { at.place + length part.now < 2 ^ 64 }
    ensures { Passes table.now l (u16_at table.now (from + 2 * which)) part.now at.place (seek_behind table.now l from which (most_entries - at.made) (spot part.now at.place)) result }
{
    if which == 0 {
        return Ok(Passed {
            node: table::u16_at(table, from),
            place: at.place,
            made: at.made,
        });
    }
    let Passed { node, place, made } = at;
    let got = reader::skim_row(table, l, node, from, which, part, place, ROOM, made);
    match got {
        Err(stopped) => Err(NotFound::Refused {
            why: stopped.why,
            place: stopped.place,
        }),
        Ok(reached) => Ok(Passed {
            node: table::u16_at(table, from + 2 * which),
            place: reached.place,
            made: reached.count,
        }),
    }
}

// The own bytes of an item that a path goes through, an option or a struct. It isn't `read_item::enter`, since no entry is made.
fn own_bytes(number: u8, part: &[u8]) -> Result<Own, Refusal>
    requires { is_passed (kind_of number) ≡ true }
    ensures { Owns number part.now result }
{
    match number {
        15 => leaf::take_flag(part, Refusal::BadOption),
        _ => Ok(Own {
            shortest: true,
            first: 0,
            second: 0,
            used: 0,
        }),
    }
}

// Whether an item that a path goes through has an inside: an option read as absent has none.
fn is_there(number: u8, first: u64) -> bool
    requires { is_passed (kind_of number) ≡ true }
    ensures { result ≡ is_there (kind_of number) first }
{
    number != 15 || 0 < first
}

// A struct or an option on the path, and then the fields in front of its child at a position. It wants room before its bytes
// are looked at.
fn pass(table: &[u8], l: Layout, which: usize, part: &[u8], at: Passed) -> Result<Passed, NotFound>
    requires good_table { GoodTable table.now l }
    requires node_lt_nodes { at.node < l.nodes }
    requires inward { Inward (node_at table.now (record_of l at.node)) which }
    requires part_bound { at.place + length part.now < 2 ^ 64 }
    ensures { Passes table.now l (node_child table.now l at.node (node_at table.now (record_of l at.node)) which) part.now at.place (seek_node table.now l at.node which (most_entries - at.made) (spot part.now at.place)) result }
{
    let place = at.place;
    if ROOM <= at.made {
        return Err(NotFound::Refused {
            why: Refusal::Room,
            place,
        });
    }
    let number = table::kind_at(table, l, at.node);
    let got = own_bytes(number, part);
    match got {
        Err(why) => Err(NotFound::Refused { why, place }),
        Ok(own) => {
            let used = own.used;
            let after = place + used;
            if !is_there(number, own.first) {
                return Err(NotFound::Absent { place });
            }
            let inside = Passed {
                node: at.node,
                place: after,
                made: at.made + 1,
            };
            let from = table::first_child(table, l, at.node);
            skim_front(table, l, from, which, &part[used..], inside)
        }
    }
}

// The item at the path's end. It wants room too.
fn take(table: &[u8], l: Layout, part: &[u8], at: Passed) -> Result<Found, NotFound>
    requires good_table { GoodTable table.now l }
    requires node_lt_nodes { at.node < l.nodes }
    requires node_value { is_field (node_kind (node_at table.now (record_of l at.node))) ≡ true }
    requires part_bound { at.place + length part.now < 2 ^ 64 }
    ensures { result ≡ seek_of (node_shape table.now l at.node) [] (most_entries - at.made) (spot part.now at.place) }
{
    let place = at.place;
    if ROOM <= at.made {
        return Err(NotFound::Refused {
            why: Refusal::Room,
            place,
        });
    }
    let number = table::kind_at(table, l, at.node);
    let got = leaf::take(number, part, place);
    match got {
        Err(why) => Err(NotFound::Refused { why, place }),
        Ok(own) => Ok(Found {
            first: own.first,
            second: own.second,
            place,
        }),
    }
}

// To the end of a path that leads to an item.
fn go(table: &[u8], l: Layout, path: &[u64], message: &[u8]) -> Result<Passed, NotFound>
    requires good_table { GoodTable table.now l }
    requires path_value { is_some (leads_of (shape_of table.now l) path.now) ≡ true }
    ensures { Arrives table.now l path.now message.now result }
{
    let mut rest = message;
    let mut at = Passed {
        node: l.root,
        place: 0,
        made: 0,
    };
    for which in path {
        let passed = pass(table, l, *which as usize, rest, at)?;
        let used = passed.place - at.place;
        rest = &rest[used..];
        at = passed;
    }
    Ok(at)
}

fn seek(table: &[u8], l: Layout, path: &[u64], message: &[u8]) -> Result<Found, NotFound>
    requires good_table { GoodTable table.now l }
    requires path_value { is_some (leads_of (shape_of table.now l) path.now) ≡ true }
    ensures { result ≡ seek_of (shape_of table.now l) path.now most_entries (front message.now) }
{
    let end = go(table, l, path, message)?;
    take(table, l, &message[end.place..], end)
}

// The item of a message that a path of positions leads to, through structs and options: its entry and its place, as the full
// read with room for 16,384 entries has put it, or why there is none.
pub fn find(table: &[u8], path: &[u64], message: &[u8]) -> Result<Found, NotFound>
    ensures { result ≡ finds table.now path.now message.now }
{
    let layout = table::check(table)?;
    if !leads(table, layout, path) {
        return Err(NotFound::NoItem);
    }
    seek(table, layout, path, message)
}

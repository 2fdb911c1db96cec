// Where two tables part, when the append question says no.
#![tactic(auto)]

ghost use Rattle.std.specs.Prelude.{◌≡◌, ◌≤◌, length};
ghost use Rattle.wire.specs.Checked.{Good};
ghost use Rattle.wire.specs.Table.{check as check_of};
ghost use Rattle.wire.specs.Answers.{area_bytes};
ghost use Rattle.append.specs.Compare.{Asked};
ghost use Rattle.parting.specs.Parting.{parted_within};
ghost use Rattle.parting.specs.Pairs.{parting_at, Followed, Stored};
ghost use Rattle.parting.specs.Promise.{Parts, Finds};

use wire::{Layout, NotAsked, RefusedAt, Side};

// A step down to two children, the position of both, and the nodes.
#[derive(Clone, Copy)]
struct Down {
    position: u64,
    p: usize,
    q: usize,
}

// How many positions a path has room for: one for each node of a good table's longest chain of children, and its last node takes none.
const ROOM: usize = 256;

// What two tables come to: the new one only appends to the old one, or they part so many positions down.
#[derive(Clone, Copy)]
pub enum Parting {
    Appends,
    Apart { depth: usize },
}

// The first pair of children that doesn't match, where the kinds are the same.
fn next_pair(
    old: &[u8],
    l: Layout,
    i: usize,
    new: &[u8],
    m: Layout,
    j: usize,
    area: &mut [u8],
) -> Option<Down>
    requires { Asked old.now l i new.now m j area.old }
    ensures { Followed old.now l i new.now m j area.new result }
{
    let number = table::kind_at(old, l, i);
    let other = table::kind_at(new, m, j);
    if number != other {
        return None;
    }
    let mut olds = table::child_count(old, l, i);
    let mut news = table::child_count(new, m, j);
    let mut from = table::first_child(old, l, i);
    let mut at = table::first_child(new, m, j);
    let mut position = 0u64;
    while 0 < olds {
        if news == 0 {
            return None;
        }
        let p = table::u16_at(old, from);
        let q = table::u16_at(new, at);
        if !append::nodes_match(old, l, p, new, m, q, area) {
            return Some(Down { position, p, q });
        }
        olds = olds - 1;
        news = news - 1;
        from = from + 2;
        at = at + 2;
        position = position + 1;
    }
    None
}

// The positions from the roots down, and how many there are.
fn go_down(
    old: &[u8],
    l: Layout,
    new: &[u8],
    m: Layout,
    area: &mut [u8],
    path: &mut [u64; ROOM],
) -> usize
    requires { Asked old.now l l.root new.now m m.root area.old }
    ensures { Stored (parting_at old.now l l.root new.now m m.root) path.old result path.new }
{
    let mut i = l.root;
    let mut j = m.root;
    let mut depth = 0;
    loop {
        let Some(Down { position, p, q }) = next_pair(old, l, i, new, m, j, area) else {
            return depth;
        };
        path[depth] = position;
        depth = depth + 1;
        i = p;
        j = q;
    }
}

// The answer where both tables are good and the work area is long enough.
fn of_good(
    old: &[u8],
    l: Layout,
    new: &[u8],
    m: Layout,
    area: &mut [u8],
    path: &mut [u64; ROOM],
) -> Result<Parting, NotAsked>
    requires value { (check_of old.now ≡ Good l) × (check_of new.now ≡ Good m) }
    requires area_bytes_in_bounds { area_bytes ≤ length area.old }
    ensures { Parts (parted_within old.now new.now) path.old result path.new }
{
    if append::roots_append(old, l, new, m, area) {
        return Ok(Parting::Appends);
    }
    let depth = go_down(old, l, new, m, area, path);
    Ok(Parting::Apart { depth })
}

// The answer where the old table is good.
fn after_old(
    old: &[u8],
    l: Layout,
    new: &[u8],
    area: &mut [u8],
    path: &mut [u64; ROOM],
) -> Result<Parting, NotAsked>
    requires value { check_of old.now ≡ Good l }
    requires area_bytes_in_bounds { area_bytes ≤ length area.old }
    ensures { Parts (parted_within old.now new.now) path.old result path.new }
{
    match table::check(new) {
        Err(RefusedAt { why, place }) => Err(NotAsked::Table {
            side: Side::New,
            why,
            place,
        }),
        Ok(layout) => of_good(old, l, new, layout, area, path),
    }
}

// The answer where the work area is long enough.
fn find_within(
    old: &[u8],
    new: &[u8],
    area: &mut [u8],
    path: &mut [u64; ROOM],
) -> Result<Parting, NotAsked>
    requires { area_bytes ≤ length area.old }
    ensures { Parts (parted_within old.now new.now) path.old result path.new }
{
    match table::check(old) {
        Err(RefusedAt { why, place }) => Err(NotAsked::Table {
            side: Side::Old,
            why,
            place,
        }),
        Ok(layout) => after_old(old, layout, new, area, path),
    }
}

// The same in the area's first bytes, so many as it must have, which are cleared after it.
fn find_and_clear(
    old: &[u8],
    new: &[u8],
    area: &mut [u8],
    size: usize,
    path: &mut [u64; ROOM],
) -> Result<Parting, NotAsked>
    requires { (area_bytes ≡ size) × (size ≤ length area.old) }
    ensures { Finds old.now new.now area.old path.old result area.new path.new }
{
    let answer = find_within(old, new, &mut area[0..size], path);
    bits::clear(&mut area[0..size]);
    answer
}

// Where the new table parts from the old one: the positions from the roots down stand in the path's first words, and no other word
// changes; none where the new one only appends. It is refused where one of them is not good, or the work area is too short.
// The work area is that of the append question, and comes back as from there.
pub fn find(
    old: &[u8],
    new: &[u8],
    area: &mut [u8],
    path: &mut [u64; ROOM],
) -> Result<Parting, NotAsked>
    ensures { Finds old.now new.now area.old path.old result area.new path.new }
{
    if append::AREA <= area.len() {
        return find_and_clear(old, new, area, append::AREA, path);
    }
    Err(NotAsked::ShortArea)
}

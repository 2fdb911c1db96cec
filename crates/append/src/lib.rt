// The append question: whether a new table only appends variants to enums and fields to the root struct of an old one.
#![tactic(auto)]

ghost use Rattle.std.specs.Prelude.{◌≡◌, true, ◌≤◌, length};
ghost use Rattle.wire.specs.Table.{is_kind, kind_of, shape_of, check as check_of};
ghost use Rattle.wire.specs.Append.{is_open, is_open_root, matches, appends as appends_of};
ghost use Rattle.wire.specs.Answers.{area_bytes, ask_by};
ghost use Rattle.laws.specs.Answered.{Asks};
ghost use Rattle.laws.specs.Tables.{node_shape, GoodTable, Limits};
ghost use Rattle.append.specs.Compare.{suits, alike, after, Begun, Asked, Told};

use wire::{Layout, NotAsked, RefusedAt, Side};

// The work area's bytes: one bit a pair of 4,096 nodes.
pub const AREA: usize = 2097152;

// ---- two nodes

// Whether variants may follow in a node of a kind.
fn is_open(number: u8) -> bool
    requires { is_kind number ≡ true }
    ensures { result ≡ is_open (kind_of number) }
{
    number == 19
}

// Whether variants or fields may follow in a root of a kind.
fn is_open_root(number: u8) -> bool
    requires { is_kind number ≡ true }
    ensures { result ≡ is_open_root (kind_of number) }
{
    number == 18 || number == 19
}

// Whether so many old children go with so many new ones.
fn fits(free: bool, old: usize, new: usize) -> bool
    ensures { result ≡ suits free old new }
{
    if free {
        return old <= new;
    }
    old == new
}

// Whether the old node i matches the new node j. A pair that is marked was found to match, and isn't compared again.
#[cycle(compare_nodes_match)]
pub fn nodes_match(
    old: &[u8],
    l: Layout,
    i: usize,
    new: &[u8],
    m: Layout,
    j: usize,
    area: &mut [u8],
) -> bool
    requires { Asked old.now l i new.now m j area.old }
    ensures { Told old.now l new.now m (matches (node_shape old.now l i) (node_shape new.now m j)) area.new result }
{
    let pair = i * m.nodes + j;
    if bits::is_marked(area, pair) {
        return true;
    }
    let number = table::kind_at(old, l, i);
    let free = is_open(number);
    if compare(old, l, i, new, m, j, free, area) {
        bits::mark(area, pair);
        return true;
    }
    false
}

// Whether they are of the same kind and the old one's children match the new one's first, all of them unless more may follow.
#[cycle(compare_nodes_match)]
fn compare(
    old: &[u8],
    l: Layout,
    i: usize,
    new: &[u8],
    m: Layout,
    j: usize,
    free: bool,
    area: &mut [u8],
) -> bool
    requires { Asked old.now l i new.now m j area.old }
    ensures { Told old.now l new.now m (alike free old.now l i new.now m j) area.new result }
{
    let number = table::kind_at(old, l, i);
    let other = table::kind_at(new, m, j);
    if number != other {
        return false;
    }
    let mut left = table::child_count(old, l, i);
    let all = table::child_count(new, m, j);
    if !fits(free, left, all) {
        return false;
    }
    let mut from = table::first_child(old, l, i);
    let mut at = table::first_child(new, m, j);
    while 0 < left {
        let p = table::u16_at(old, from);
        let q = table::u16_at(new, at);
        if !nodes_match(old, l, p, new, m, q, area) {
            return false;
        }
        from = from + 2;
        at = at + 2;
        left = left - 1;
    }
    true
}

// ---- the question

// Whether the new one of two good tables appends to the old one. Whatever the area held, the bits of their pairs are cleared before.
pub fn roots_append(old: &[u8], l: Layout, new: &[u8], m: Layout, area: &mut [u8]) -> bool
    requires { Begun old.now l new.now m area.old }
    ensures { Told old.now l new.now m (appends_of (shape_of old.now l) (shape_of new.now m)) area.new result }
{
    let i = l.root;
    let j = m.root;
    let used = (l.nodes * m.nodes + 7) / 8;
    bits::clear(&mut area[0..used]);
    let number = table::kind_at(old, l, i);
    let free = is_open_root(number);
    compare(old, l, i, new, m, j, free, area)
}

// The answer where the old table is good.
fn after_old(old: &[u8], l: Layout, new: &[u8], area: &mut [u8]) -> Result<bool, NotAsked>
    requires good_table { GoodTable old.now l × Limits l }
    requires area_bytes_in_bounds { area_bytes ≤ length area.old }
    ensures { result ≡ after old.now l new.now }
{
    match table::check(new) {
        Err(RefusedAt { why, place }) => Err(NotAsked::Table {
            side: Side::New,
            why,
            place,
        }),
        Ok(layout) => Ok(roots_append(old, l, new, layout, area)),
    }
}

// The answer where the work area is long enough.
fn ask(old: &[u8], new: &[u8], area: &mut [u8]) -> Result<bool, NotAsked>
    requires { area_bytes ≤ length area.old }
    ensures { result ≡ ask_by (check_of old.now) (check_of new.now) old.now new.now }
{
    match table::check(old) {
        Err(RefusedAt { why, place }) => Err(NotAsked::Table {
            side: Side::Old,
            why,
            place,
        }),
        Ok(layout) => after_old(old, layout, new, area),
    }
}

// The same in the area's first bytes, so many as it must have, which are cleared after it.
fn ask_and_clear(old: &[u8], new: &[u8], area: &mut [u8], size: usize) -> Result<bool, NotAsked>
    requires { (area_bytes ≡ size) × (size ≤ length area.old) }
    ensures { Asks old.now new.now area.old result area.new }
{
    let answer = ask(old, new, &mut area[0..size]);
    bits::clear(&mut area[0..size]);
    answer
}

// Whether the new table only appends to the old one; or which of them is not good, the old one first, why and at which node.
// The work area comes back all zero; one that is too short is refused before all else, and unchanged.
pub fn appends(old: &[u8], new: &[u8], area: &mut [u8]) -> Result<bool, NotAsked>
    ensures { Asks old.now new.now area.old result area.new }
{
    if AREA <= area.len() {
        return ask_and_clear(old, new, area, AREA);
    }
    Err(NotAsked::ShortArea)
}

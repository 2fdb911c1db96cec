// The schema table: its check, and how code goes through one that is good.
#![tactic(auto)]

ghost use Rattle.std.specs.Prelude.{◌≡◌, true, max, ◌+◌, ◌*◌, ◌^◌, ◌<◌, ◌≤◌, length, eqb, ltb};
ghost use Rattle.wire.specs.Tests.{pick, both};
ghost use Rattle.wire.specs.Walk.{following, is_known};
ghost use Rattle.wire.specs.Table.{u16_at, u32_at, first as first_form, second as second_form, ending_at, layout_at, is_kind, kind_of, record_of, node_at, first_child, child_count, good_kind, good_node, check_from, check_as};
ghost use Rattle.wire.specs.Table.{below as all_below, check as check_of};
ghost use Rattle.laws.specs.KindRanges.{is_inner};
ghost use Rattle.laws.specs.Tables.{node_first, node_count, GoodTable};
ghost use Rattle.laws.specs.Chains.{longest_at, kept_chain};
ghost use Rattle.table.specs.Parts.{Inside, Small, fitting, listed, chain_at, bad_at, followed, Falls, fields_of, Flat};

use wire::{Ending, Layout, Refusal, RefusedAt};

// Each form owns its trailer's bytes and its mark, and the most nodes and bytes of child list.
#[derive(Clone, Copy)]
struct First;

#[derive(Clone, Copy)]
struct Second;

impl First {
    const SIZE: usize = 10;

    const MARK: usize = 0x5053;

    const NODES: usize = 256;

    const BYTES: usize = 2048;
}

impl Second {
    const SIZE: usize = 14;

    const MARK: usize = 0x5057;

    const NODES: usize = 4096;

    const BYTES: usize = 65536;
}

// A record's bytes, and the longest chain of children, a leaf counting 1.
const RECORD: usize = 6;

const LONGEST: usize = 256;

// A list of fewer children is short.
const SHORT: usize = 8;

// What follows an item: the `width` numbers that stand at `from` in the table, `rounds` times over.
#[derive(Clone, Copy)]
pub struct Stretch {
    pub rounds: u64,
    pub from: usize,
    pub width: usize,
}

// A stretch as its rounds go, and whether the entry of a struct heads each of them.
#[derive(Clone, Copy)]
pub struct Way {
    pub headed: bool,
    pub from: usize,
    pub width: usize,
}

fn wide(x: u8) -> usize
    ensures { (result ≡ x) × (result < 256) }
{
    x as usize
}

fn wider(x: u16) -> usize
    ensures { result ≡ x }
{
    x as usize
}

// The u16 at an offset, as a child's number stands in the table.
pub fn u16_at(table: &[u8], at: usize) -> usize
    requires { at + 2 ≤ length table.now }
    ensures { (result ≡ u16_at table.now at) × (result < 65536) }
{
    let low = wide(table[at]);
    let high = wide(table[at + 1]);
    low + 256 * high
}

fn u32_at(table: &[u8], at: usize) -> usize
    requires { at + 4 ≤ length table.now }
    ensures { (result ≡ u32_at table.now at) × (result < 4294967296) }
{
    let low = u16_at(table, at);
    let high = u16_at(table, at + 2);
    low + 65536 * high
}

// ---- the trailer

fn first_ending(table: &[u8], end: usize) -> Ending
    requires { end + 10 ≡ length table.now }
    ensures { (result ≡ ending_at first_form table.now end) × Small result }
{
    let c = u16_at(table, end);
    let d = u16_at(table, end + 2);
    let n = u16_at(table, end + 4);
    let root = u16_at(table, end + 6);
    let mark = u16_at(table, end + 8);
    Ending {
        c,
        d,
        n,
        root,
        mark,
    }
}

fn second_ending(table: &[u8], end: usize) -> Ending
    requires { end + 14 ≡ length table.now }
    ensures { (result ≡ ending_at second_form table.now end) × Small result }
{
    let c = u32_at(table, end);
    let d = u32_at(table, end + 4);
    let n = u16_at(table, end + 8);
    let root = u16_at(table, end + 10);
    let mark = u16_at(table, end + 12);
    Ending {
        c,
        d,
        n,
        root,
        mark,
    }
}

// Whether a trailer's mark and numbers are a form's, in a file of `end` bytes and the trailer.
fn good_trailer(t: Ending, mark: usize, nodes: usize, bytes: usize, end: usize) -> bool
    requires { Small t }
    ensures { result ≡ fitting t mark nodes bytes end }
{
    if t.mark != mark {
        return false;
    }
    // So there is a node.
    if t.n <= t.root {
        return false;
    }
    if nodes < t.n {
        return false;
    }
    if t.c % 2 != 0 {
        return false;
    }
    if bytes < t.c {
        return false;
    }
    if t.d != RECORD * t.n + t.c {
        return false;
    }
    t.d <= end
}

fn layout_at(t: Ending, end: usize) -> Layout
    requires { (t.c ≤ end) × (t.d ≤ end) }
    ensures { result ≡ layout_at t end }
{
    Layout {
        records: end - t.d,
        children: end - t.c,
        places: t.c / 2,
        nodes: t.n,
        root: t.root,
    }
}

// ---- a record

fn both_zero(a: usize, b: usize) -> bool
    ensures { result ≡ both (eqb a 0) (eqb b 0) }
{
    if a == 0 {
        return b == 0;
    }
    false
}

fn larger(a: u16, b: u16) -> u16
    ensures { result ≡ max a b }
{
    if a < b {
        return b;
    }
    a
}

// Whether so many numbers from an offset on, of which there is one, are below a node. All are gone through, for the largest of
// them: the compiler then takes eight at a time, which it doesn't where a loop may end early.
fn all_below(table: &[u8], node: usize, from: usize, count: usize) -> bool
    requires { (from + 2 * count ≤ length table.now) × (0 < count) }
    ensures { result ≡ all_below table.now node from count }
{
    let mut largest: u16 = 0;
    let mut at = from;
    let mut left = count;
    while 0 < left {
        let child = u16_at(table, at);
        largest = larger(largest, child as u16);
        at = at + 2;
        left = left - 1;
    }
    wider(largest) < node
}

// The same of a short list, number by number: the compiler writes the few turns out.
fn few_below(table: &[u8], node: usize, from: usize, count: usize) -> bool
    requires { from + 2 * count ≤ length table.now }
    ensures { result ≡ all_below table.now node from count }
{
    let mut at = from;
    let mut left = count;
    while 0 < left {
        let child = u16_at(table, at);
        if node <= child {
            return false;
        }
        at = at + 2;
        left = left - 1;
    }
    true
}

// A record of an option or a sequence, whose child's number is a.
fn one_below(node: usize, a: usize, b: usize) -> bool
    ensures { result ≡ both (eqb b 0) (ltb a node) }
{
    if b == 0 {
        return a < node;
    }
    false
}

// A map's, whose children's numbers are a and b.
fn both_below(node: usize, a: usize, b: usize) -> bool
    ensures { result ≡ both (ltb a node) (ltb b node) }
{
    if a < node {
        return b < node;
    }
    false
}

// The record of a kind whose children's numbers are in it.
fn good_own(node: usize, number: usize, a: usize, b: usize) -> bool
    ensures { result ≡ pick (eqb number 17) (both (ltb a node) (ltb b node)) (both (eqb b 0) (ltb a node)) }
{
    if number == 17 {
        return both_below(node, a, b);
    }
    one_below(node, a, b)
}

// Whether b places from the a-th on are in the child list, with numbers below the node.
fn good_list(table: &[u8], l: Layout, node: usize, a: usize, b: usize) -> bool
    requires inside { Inside table.now l }
    requires a_bound { (a < 65536) × (b < 65536) }
    ensures { result ≡ listed table.now l node a b }
{
    if l.places < a + b {
        return false;
    }
    let from = l.children + 2 * a;
    if b < SHORT {
        return few_below(table, node, from, b);
    }
    all_below(table, node, from, b)
}

// A struct's or an enum's record, of which a struct alone may have no children.
fn good_children(table: &[u8], l: Layout, node: usize, number: usize, a: usize, b: usize) -> bool
    requires inside { Inside table.now l }
    requires lt_number { (17 < number) × (number < 20) }
    requires a_bound { (a < 65536) × (b < 65536) }
    ensures { result ≡ both (is_kind number) (good_kind table.now l node (kind_of number) a b) }
{
    if 1 <= b {
        return good_list(table, l, node, a, b);
    }
    if number == 18 {
        return a == 0;
    }
    false
}

// The node i by its record, whose first two bytes are one number: the kind's, or no kind's where the second isn't zero.
fn good_record(table: &[u8], l: Layout, i: usize) -> bool
    requires inside { Inside table.now l }
    requires i_lt_nodes { i < l.nodes }
    ensures { result ≡ good_node table.now l i (node_at table.now (record_of l i)) }
{
    let at = l.records + RECORD * i;
    let number = u16_at(table, at);
    let a = u16_at(table, at + 2);
    let b = u16_at(table, at + 4);
    match number {
        0..=14 => both_zero(a, b),
        15..=17 => good_own(i, number, a, b),
        18 | 19 => good_children(table, l, i, number, a, b),
        20..=31 => both_zero(a, b),
        _ => false,
    }
}

// Whether a record, at an offset, is of a kind below 15 with zeros behind. The four bytes to a's end are then one number below 15.
fn is_leaf(table: &[u8], at: usize) -> bool
    requires { at + 6 ≤ length table.now }
    ensures { result ≡ both (ltb (u32_at table.now at) 15) (eqb (u16_at table.now (at + 4)) 0) }
{
    let front = u32_at(table, at);
    if front < 15 {
        let b = u16_at(table, at + 4);
        return b == 0;
    }
    false
}

// The node i, whose record stands at an offset. Most nodes are such leaves. For the others the offset is worked out again: of
// bytes that are taken from one place twice the compiler makes no wider number.
fn good_node(table: &[u8], l: Layout, i: usize, at: usize) -> bool
    requires inside { Inside table.now l }
    requires i_lt_nodes { (i < l.nodes) × (at ≡ record_of l i) }
    ensures { result ≡ good_node table.now l i (node_at table.now (record_of l i)) }
{
    if is_leaf(table, at) {
        return true;
    }
    good_record(table, l, i)
}

// ---- chains of children

// Where the numbers of a node's children begin.
fn children_from(l: Layout, i: usize, number: u8, a: usize) -> usize
    requires { (record_of l i + 2 < 2 ^ 64) × (l.children + 2 * a < 2 ^ 64) }
    ensures { result ≡ first_child l i (kind_of number) a }
{
    let own = l.records + RECORD * i + 2;
    match number {
        0..=17 => own,
        18 | 19 => l.children + 2 * a,
        _ => own,
    }
}

// How many they are.
fn children_of(number: u8, b: usize) -> usize
    ensures { result ≡ child_count (kind_of number) b }
{
    match number {
        0..=14 => 0,
        15 | 16 => 1,
        17 => 2,
        18 | 19 => b,
        _ => 0,
    }
}

// The longest chain of so many nodes whose numbers stand from an offset on.
fn longest_of(table: &[u8], chains: &[u16], node: usize, from: usize, count: usize) -> u16
    requires falls { Falls table.now from count node }
    requires node_in_bounds { node ≤ length chains.now }
    ensures { result ≡ longest_at (chain_at chains.now) table.now from count }
{
    let mut longest: u16 = 0;
    let mut at = from;
    let mut left = count;
    while 0 < left {
        let child = u16_at(table, at);
        longest = larger(longest, chains[child]);
        at = at + 2;
        left = left - 1;
    }
    longest
}

// The chain of the node i, whose record is good and stands at an offset, by the chains of the nodes in front.
fn chain_at(table: &[u8], l: Layout, chains: &[u16], i: usize, at: usize) -> usize
    requires inside { Inside table.now l }
    requires i_lt_nodes { (i < l.nodes) × (at ≡ record_of l i) }
    requires i_value { good_node table.now l i (node_at table.now (record_of l i)) ≡ true }
    requires i_in_bounds { i ≤ length chains.now }
    ensures { result ≡ kept_chain table.now l chains.now i (node_at table.now (record_of l i)) }
{
    let number = table[at];
    let a = u16_at(table, at + 2);
    let b = u16_at(table, at + 4);
    let from = children_from(l, i, number, a);
    let count = children_of(number, b);
    let longest = longest_of(table, chains, i, from, count);
    longest as usize + 1
}

// ---- the check

// The first node that is not good, or how many there are: a number, since an answer made in a loop is kept in memory.
fn first_bad(table: &[u8], l: Layout) -> usize
    requires { Inside table.now l }
    ensures { check_from first_form table.now l 0 l.nodes ≡ bad_at l result }
{
    let mut i = 0;
    let mut at = l.records;
    while i < l.nodes {
        if !good_node(table, l, i, at) {
            return i;
        }
        i = i + 1;
        at = at + RECORD;
    }
    i
}

// The same where a chain may be too long. The chains so far are kept, so that each is found from its children's.
fn first_bad_or_long(table: &[u8], l: Layout, chains: &mut [u16]) -> usize
    requires inside { Inside table.now l }
    requires nodes_in_bounds { l.nodes ≤ length chains.old }
    ensures { check_from second_form table.now l 0 l.nodes ≡ bad_at l result }
{
    let mut i = 0;
    let mut at = l.records;
    while i < l.nodes {
        if !good_node(table, l, i, at) {
            return i;
        }
        let chain = chain_at(table, l, chains, i, at);
        if LONGEST < chain {
            return i;
        }
        chains[i] = chain as u16;
        i = i + 1;
        at = at + RECORD;
    }
    i
}

// The same, with room of its own for the chains: little for few nodes, so that a small table is not kept waiting until much is
// cleared.
fn second_bad(table: &[u8], l: Layout) -> usize
    requires inside { Inside table.now l }
    requires nodes_bound { l.nodes ≤ 4096 }
    ensures { check_from second_form table.now l 0 l.nodes ≡ bad_at l result }
{
    if l.nodes <= First::NODES {
        let mut chains = [0u16; First::NODES];
        return first_bad_or_long(table, l, &mut chains);
    }
    let mut chains = [0u16; Second::NODES];
    first_bad_or_long(table, l, &mut chains)
}

// The answer by the first bad node.
fn answer(l: Layout, bad: usize) -> Result<Layout, RefusedAt>
    ensures { result ≡ bad_at l bad }
{
    if bad < l.nodes {
        return Err(RefusedAt {
            why: Refusal::Record,
            place: bad,
        });
    }
    Ok(l)
}

// A table of the second form.
fn check_second(table: &[u8]) -> Result<Layout, RefusedAt>
    ensures { result ≡ check_as second_form table.now }
{
    let len = table.len();
    if Second::SIZE <= len {
        let end = len - Second::SIZE;
        let t = second_ending(table, end);
        if good_trailer(t, Second::MARK, Second::NODES, Second::BYTES, end) {
            let l = layout_at(t, end);
            let bad = second_bad(table, l);
            return answer(l, bad);
        }
    }
    Err(RefusedAt {
        why: Refusal::Trailer,
        place: 0,
    })
}

// The same answer, made anew: one that a call left in memory then meets those of other arms in registers.
fn anew(got: Result<Layout, RefusedAt>) -> Result<Layout, RefusedAt>
    ensures { result ≡ got }
{
    let Ok(layout) = got else {
        return got;
    };
    Ok(layout)
}

// The table's layout if it is good; else why it is not, and the first node that is not. What has no good trailer of the first
// form is left to the second's check, by two calls: of one alone the compiler would make a part of this function, and every
// check would pay for the array of chains. It is lent the table as a part: to lend the table itself, every check would first copy
// where it lies, by a load that waits for the caller's two stores.
pub fn check(table: &[u8]) -> Result<Layout, RefusedAt>
    ensures { result ≡ check_of table.now }
{
    let len = table.len();
    if len < First::SIZE {
        return anew(check_second(&table[0..]));
    }
    let end = len - First::SIZE;
    let t = first_ending(table, end);
    if good_trailer(t, First::MARK, First::NODES, First::BYTES, end) {
        let l = layout_at(t, end);
        let bad = first_bad(table, l);
        return answer(l, bad);
    }
    anew(check_second(&table[0..]))
}

// ---- a good table's nodes

// The number of a node's kind.
pub fn kind_at(table: &[u8], l: Layout, i: usize) -> u8
    requires good_table { GoodTable table.now l }
    requires i_lt_nodes { i < l.nodes }
    ensures { result ≡ (node_at table.now (record_of l i)).number }
{
    let at = l.records + RECORD * i;
    table[at]
}

// Whether a kind, given by its number, has children.
pub fn is_inner(number: u8) -> bool
    ensures { result ≡ is_inner number }
{
    match number {
        15..=19 => true,
        _ => false,
    }
}

// Where the numbers of a node's children begin.
pub fn first_child(table: &[u8], l: Layout, i: usize) -> usize
    requires good_table { GoodTable table.now l }
    requires i_lt_nodes { i < l.nodes }
    ensures { result ≡ node_first l i (node_at table.now (record_of l i)) }
{
    let at = l.records + RECORD * i;
    let number = table[at];
    let a = u16_at(table, at + 2);
    children_from(l, i, number, a)
}

// How many they are.
pub fn child_count(table: &[u8], l: Layout, i: usize) -> usize
    requires good_table { GoodTable table.now l }
    requires i_lt_nodes { i < l.nodes }
    ensures { result ≡ node_count (node_at table.now (record_of l i)) }
{
    let at = l.records + RECORD * i;
    let number = table[at];
    let b = u16_at(table, at + 4);
    children_of(number, b)
}

// Where the root's number stands, in the trailer.
pub fn root_at(table: &[u8]) -> usize
    requires { 4 ≤ length table.now }
    ensures { result + 4 ≡ length table.now }
{
    table.len() - 4
}

// What follows an item of a kind with its first word, of the node's `width` children whose numbers stand at `from`.
pub fn follow(number: u8, first: u64, from: usize, width: usize) -> Stretch
    requires width_value { is_known (following (kind_of number) first) width ≡ true }
    requires width_bound { from + 2 * width < 2 ^ 64 }
    ensures { result ≡ followed (following (kind_of number) first) from width }
{
    match number {
        0..=14 => Stretch {
            rounds: 0,
            from,
            width,
        },
        15..=17 => Stretch {
            rounds: first,
            from,
            width,
        },
        18 => Stretch {
            rounds: 1,
            from,
            width,
        },
        19 => Stretch {
            rounds: 1,
            from: from + 2 * (first as usize),
            width: 1,
        },
        _ => Stretch {
            rounds: 0,
            from,
            width,
        },
    }
}

// A struct's fields.
fn fields(table: &[u8], l: Layout, i: usize) -> Way
    requires good_table { GoodTable table.now l }
    requires i_lt_nodes { i < l.nodes }
    requires i_value { (node_at table.now (record_of l i)).number ≡ 18 }
    ensures { result ≡ fields_of l i (node_at table.now (record_of l i)) }
{
    let at = l.records + RECORD * i;
    let a = u16_at(table, at + 2);
    let b = u16_at(table, at + 4);
    Way {
        headed: true,
        from: l.children + 2 * a,
        width: b,
    }
}

// A stretch as its rounds go: by the fields of a struct where it is that struct alone, so that no call is made for the struct.
pub fn flat(table: &[u8], l: Layout, node: usize, from: usize, width: usize) -> Way
    requires good_table { GoodTable table.now l }
    requires node_le_nodes { node ≤ l.nodes }
    requires falls { Falls table.now from width node }
    ensures { Flat table.now l node from width result }
{
    if width == 1 {
        let c = u16_at(table, from);
        let number = kind_at(table, l, c);
        if number == 18 {
            return fields(table, l, c);
        }
    }
    Way {
        headed: false,
        from,
        width,
    }
}

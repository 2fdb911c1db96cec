// The whole check of a batch: the starts of its messages are marked, a window of them at a time, and each row is followed to its
// message. What a good batch is stands in desk's specs/Batch.antt.
#![tactic(auto)]

ghost use Rattle.std.specs.Prelude.{◌≡◌, true, ◌<◌, length};
ghost use Rattle.batches.specs.Sorted.{is_rising};
ghost use Rattle.batches.specs.Starts.{Starts};
ghost use Rattle.row.specs.Ranks.{rows_in};
ghost use Rattle.messages.specs.Fields.{keys_of, KeyedBy};
ghost use Rattle.starts.specs.Window.{Window, Marks, Stands, AllStand, parts_in, Judges};

use desk::Row;
use messages::Fields;
use wire::Layout;

// How far starts are marked, and how many they are.
#[derive(Clone, Copy)]
pub struct Upto {
    pub at: usize,
    pub count: usize,
}

// A window's bytes, a bit a place: for a small batch, and for any other.
const SMALL: usize = 4096;

const LARGE: usize = 262144;

// Marks the starts of the messages from a place on, up to the end of the window or of the bytes.
pub fn mark(
    table: &[u8],
    l: Layout,
    f: Fields,
    front: &[u8],
    base: usize,
    many: usize,
    area: &mut [u8],
) -> Option<Upto>
    requires keyed_by { KeyedBy table.now l f }
    requires starts { Starts (keys_of table.now l f) front.now many base }
    requires base_in_bounds { (base < length front.now) × (0 < length area.old) }
    ensures { Marks (keys_of table.now l f) front.now base area.new result }
{
    bits::clear(area);
    let mut at = base;
    let mut count = many;
    while at < front.len() {
        let place = at - base;
        if area.len() <= place / 8 {
            return Some(Upto { at, count });
        }
        let Ok(message) = messages::next(table, l, f, &front[at..]) else {
            return None;
        };
        bits::mark(area, place);
        at = at + message.len;
        count = count + 1;
    }
    Some(Upto { at, count })
}

// Whether a row that leads into a window stands at its message, and leads into the bytes at all.
fn stands(
    table: &[u8],
    l: Layout,
    f: Fields,
    front: &[u8],
    row: Row,
    base: usize,
    at: usize,
    area: &[u8],
) -> bool
    requires keyed_by { KeyedBy table.now l f }
    requires window { Window (keys_of table.now l f) front.now base at area.now }
    ensures { Stands (keys_of table.now l f) front.now base at row result }
{
    let from = row.offset as usize;
    if at <= from {
        return from < front.len();
    }
    if from < base {
        return true;
    }
    let place = from - base;
    if !bits::is_marked(area, place) {
        return false;
    }
    messages::has_key(table, l, f, &front[from..], row.key)
}

// The same of all rows.
fn all_stand(
    table: &[u8],
    l: Layout,
    f: Fields,
    front: &[u8],
    rows: &[u8],
    base: usize,
    at: usize,
    area: &[u8],
) -> bool
    requires keyed_by { KeyedBy table.now l f }
    requires window { Window (keys_of table.now l f) front.now base at area.now }
    ensures { AllStand (keys_of table.now l f) front.now base at (rows_in rows.now) result }
{
    for i in 0..rows.len() / 16 {
        let row = row::load(rows, i);
        if !stands(table, l, f, front, row, base, at, area) {
            return false;
        }
    }
    true
}

// Whether a batch whose rows rise is good, window by window.
fn by_windows(
    table: &[u8],
    l: Layout,
    f: Fields,
    front: &[u8],
    rows: &[u8],
    area: &mut [u8],
) -> bool
    requires keyed_by { KeyedBy table.now l f }
    requires rows_value { is_rising (rows_in rows.now) ≡ true }
    requires area_nonzero { 0 < length area.old }
    ensures { Judges (parts_in table.now l f front.now rows.now) result }
{
    let mut base = 0;
    let mut count = 0;
    while base < front.len() {
        let Some(upto) = mark(table, l, f, front, base, count, area) else {
            return false;
        };
        if !all_stand(table, l, f, front, rows, base, upto.at, area) {
            return false;
        }
        base = upto.at;
        count = upto.count;
    }
    count == rows.len() / 16
}

// Whether each row stands before the next.
fn rise(rows: &[u8]) -> bool
    ensures { result ≡ is_rising (rows_in rows.now) }
{
    let count = rows.len() / 16;
    if count == 0 {
        return true;
    }
    let mut last = row::load(rows, 0);
    for i in 1..count {
        let next = row::load(rows, i);
        if !row::below(last, next) {
            return false;
        }
        last = next;
    }
    true
}

// Whether so many bytes of messages fit into the window of a small batch.
pub fn is_small(len: usize) -> bool {
    len / 8 < SMALL
}

// Memory for the windows of a small batch, and of any other.
pub fn small() -> [u8; SMALL] {
    [0; SMALL]
}

pub fn large() -> [u8; LARGE] {
    [0; LARGE]
}

// Whether a batch is good: the bytes before its rows are messages end to end, and the rows are theirs, sorted.
pub fn judge(table: &[u8], l: Layout, f: Fields, front: &[u8], rows: &[u8], area: &mut [u8]) -> bool
    requires keyed_by { KeyedBy table.now l f }
    requires area_nonzero { 0 < length area.old }
    ensures { Judges (parts_in table.now l f front.now rows.now) result }
{
    rise(rows) && by_windows(table, l, f, front, rows, area)
}

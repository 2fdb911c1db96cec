// What a compaction keeps of a good batch, counted and then laid out. A message is kept where the last row of its key leads; these
// places are marked, a window of them at a time. What is kept stands in desk's specs/Compact.antt.
#![tactic(auto)]

ghost use Rattle.std.specs.Prelude.{◌≡◌, true, ◌+◌, ◌*◌, ◌^◌, ◌≤◌, ◌<◌, length, leb};
ghost use Rattle.std.proofs.lemmas.List.Edits.{sets};
ghost use Rattle.wire.specs.Tests.{pick};
ghost use Rattle.desk.specs.Rows.{row_bytes};
ghost use Rattle.desk.specs.Batch.{messages_of};
ghost use Rattle.batches.specs.Sorted.{is_sorted};
ghost use Rattle.row.specs.Ranks.{rows_in};
ghost use Rattle.messages.specs.Fields.{keys_of, KeyedBy, first_place, second_place};
ghost use Rattle.starts.specs.Window.{parts_in};
ghost use Rattle.keeping.specs.Kept.{Good, survey_of, Keeps, kept_for, batch_kept};
ghost use Rattle.keeping.specs.Lasts.{MarksIf, Lasts, InWindow};

use desk::Row;
use messages::Fields;
use wire::Layout;

// A trailer's bytes.
const TRAILER: usize = 12;

// How many messages of a batch are kept, and of how many bytes.
#[derive(Clone, Copy)]
pub struct Surveyed {
    pub count: usize,
    pub len: usize,
}

// ---- the last messages of their keys

// Marks the place that a row leads to, if the row ends its key and there is a bit for the place.
fn mark_if(ends: bool, offset: u64, base: usize, area: &mut [u8])
    ensures { MarksIf ends base offset area.old area.new }
{
    if ends {
        let at = offset as usize;
        if base <= at {
            let place = at - base;
            if place / 8 < area.len() {
                bits::mark(area, place);
            }
        }
    }
}

// Marks the places of a window that keys' last rows lead to: the row behind such a row has another key, or there is none.
fn mark_last(rows: &[u8], base: usize, area: &mut [u8])
    requires { is_sorted (rows_in rows.now) ≡ true }
    ensures { Lasts (rows_in rows.now) base area.new }
{
    bits::clear(area);
    let count = rows.len() / 16;
    if count == 0 {
        return;
    }
    let mut last = row::load(rows, 0);
    for i in 1..count {
        let next = row::load(rows, i);
        let goes_on = messages::same_key(last.key, next.key);
        mark_if(!goes_on, last.offset, base, area);
        last = next;
    }
    mark_if(true, last.offset, base, area);
}

// Where the window begins that a place is in: the one at hand, or one that begins there, which is marked then.
fn window_at(rows: &[u8], base: usize, at: usize, area: &mut [u8]) -> usize
    requires rows_value { is_sorted (rows_in rows.now) ≡ true }
    requires lasts { Lasts (rows_in rows.now) base area.old }
    requires base_le_at { (base ≤ at) × (0 < length area.old) }
    ensures { InWindow (rows_in rows.now) at area.new result }
{
    if (at - base) / 8 < area.len() {
        return base;
    }
    mark_last(rows, at, area);
    at
}

// ---- counted

// Counts what is kept of a good batch.
pub fn survey(
    table: &[u8],
    l: Layout,
    f: Fields,
    front: &[u8],
    rows: &[u8],
    area: &mut [u8],
) -> Surveyed
    requires keyed_by { KeyedBy table.now l f }
    requires good { Good (parts_in table.now l f front.now rows.now) }
    requires area_nonzero { 0 < length area.old }
    ensures { result ≡ survey_of (messages_of (parts_in table.now l f front.now rows.now)) }
{
    mark_last(rows, 0, area);
    let mut at = 0;
    let mut base = 0;
    let mut count = 0;
    let mut len = 0;
    while at < front.len() {
        let Ok(message) = messages::next(table, l, f, &front[at..]) else {
            return Surveyed { count, len };
        };
        let size = message.len;
        let behind = at + size;
        base = window_at(rows, base, at, area);
        if bits::is_marked(area, at - base) {
            count = count + 1;
            len = len + size;
        }
        at = behind;
    }
    Surveyed { count, len }
}

// Whether an output has room for so many messages of so many bytes, their rows and the trailer.
pub fn has_room(room: usize, count: usize, len: usize) -> bool
    requires { 16 * count < 2 ^ 64 }
    ensures { result ≡ leb (len + (16 * count + 12)) room }
{
    let many = 16 * count;
    if room < TRAILER {
        return false;
    }
    let left = room - TRAILER;
    if left < many {
        return false;
    }
    len <= left - many
}

// Puts a message that is kept behind those before it, and its row behind theirs, which start at `len`.
fn put_kept(bytes: &[u8], row: Row, out: &mut [u8], len: usize, to: usize, many: usize)
    requires { len + 16 * many + 16 ≤ length out.old }
    ensures { out.new ≡ sets (sets out.old to bytes.now) (len + 16 * many) (row_bytes row) }
{
    output::put_bytes(bytes, out, to);
    row::put(&mut out[len..], many, row);
}

// Puts the messages that are kept, and a row for each behind them, in the messages' order.
fn keep(
    table: &[u8],
    l: Layout,
    f: Fields,
    front: &[u8],
    rows: &[u8],
    area: &mut [u8],
    len: usize,
    out: &mut [u8],
)
    requires keyed_by { KeyedBy table.now l f }
    requires keeps { Keeps table.now l f front.now rows.now len out.old }
    requires area_nonzero { 0 < length area.old }
    ensures { out.new ≡ kept_for (messages_of (parts_in table.now l f front.now rows.now)) out.old }
{
    mark_last(rows, 0, area);
    let mut at = 0;
    let mut base = 0;
    let mut to = 0;
    let mut many = 0;
    while at < front.len() {
        let Ok(message) = messages::next(table, l, f, &front[at..]) else {
            return;
        };
        let size = message.len;
        let behind = at + size;
        base = window_at(rows, base, at, area);
        if bits::is_marked(area, at - base) {
            let offset = to as u64;
            let row = Row {
                key: message.key,
                offset,
            };
            put_kept(&front[at..behind], row, out, len, to, many);
            to = to + size;
            many = many + 1;
        }
        at = behind;
    }
}

// The place of the key field that stands first, or of the other.
fn place_of(first: bool, f: Fields) -> usize
    requires { second_place f < 2 ^ 64 }
    ensures { result ≡ pick first (first_place f) (second_place f) }
{
    if first {
        return f.before;
    }
    f.before + 1 + f.between
}

// Lays out the batch of the messages that are kept: the messages, their rows sorted, and the trailer.
pub fn lay(
    table: &[u8],
    l: Layout,
    f: Fields,
    front: &[u8],
    rows: &[u8],
    area: &mut [u8],
    count: usize,
    len: usize,
    out: &mut [u8],
)
    requires keyed_by { KeyedBy table.now l f }
    requires keeps { Keeps table.now l f front.now rows.now len out.old }
    requires out_len { length out.old ≡ len + (16 * count + 12) }
    requires area_nonzero { 0 < length area.old }
    ensures { out.new ≡ batch_kept (keys_of table.now l f) (messages_of (parts_in table.now l f front.now rows.now)) }
{
    let end = len + 16 * count;
    let many = count as u64;
    let store = place_of(f.ahead, f);
    let product = place_of(!f.ahead, f);
    keep(table, l, f, front, rows, area, len, out);
    sorting::sort(&mut out[len..end]);
    laying::put_trailer(&mut out[end..], many, store, product);
}

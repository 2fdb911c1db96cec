// The night batch: messages end to end, sorted rows and a trailer that points back. What is right stands in desk's specs/Batch.antt.
#![tactic(auto)]

ghost use Rattle.std.specs.Prelude.{◌≡◌, ◌<◌, length};
ghost use Rattle.wire.specs.Checked.{Good as GoodTable};
ghost use Rattle.wire.specs.Table.{check as check_of};
ghost use Rattle.desk.specs.BatchFound.{Part as PartFound};
ghost use Rattle.desk.specs.Batch.{batch_check, part_of, writes};
ghost use Rattle.desk.specs.Compact.{compacts};
ghost use Rattle.batches.specs.Search.{Searched};
ghost use Rattle.messages.specs.Fields.{KeyedBy};
ghost use Rattle.starts.specs.Window.{parts_in, Judges};
ghost use Rattle.batch.specs.Compacting.{compacted_by};
ghost use Rattle.batch.specs.Writing.{Fitting, made_by, Writes};
ghost use Rattle.batch.specs.Opened.{Opens, Parted, Finds};

use desk::{Fault, Key, Part};
use messages::Fields;
use wire::{Layout, Refusal};

// A batch taken apart by its trailer: its key fields, and where its rows start and end.
#[derive(Clone, Copy)]
pub struct Parts {
    pub fields: Fields,
    pub start: usize,
    pub end: usize,
}

// A trailer's bytes.
const TRAILER: usize = 12;

// Takes a batch apart by its trailer, whose fields are judged before its numbers.
fn take_apart(table: &[u8], l: Layout, batch: &[u8]) -> Result<Parts, Fault>
    requires { check_of table.now ≡ GoodTable l }
    ensures { Opens table.now l batch.now result }
{
    let len = batch.len();
    if len < TRAILER {
        return Err(Fault::Batch);
    }
    let end = len - TRAILER;
    let store = table::u16_at(batch, end + 8);
    let product = table::u16_at(batch, end + 10);
    let Some(fields) = messages::fields_of(table, l, store, product) else {
        return Err(Fault::Fields);
    };
    let count = row::half(batch, end);
    let distance = row::half(batch, end + 4);
    if distance != 16 * count {
        return Err(Fault::Batch);
    }
    let back = distance as usize;
    if end < back {
        return Err(Fault::Batch);
    }
    let start = end - back;
    Ok(Parts { fields, start, end })
}

// The message of a key that the rows in front of a turn lead to.
fn find(table: &[u8], l: Layout, parts: Parts, batch: &[u8], key: Key) -> Result<Part, Fault>
    requires { Parted table.now l batch.now parts.fields parts.start parts.end }
    ensures { Finds table.now l batch.now parts.fields parts.start parts.end key result }
{
    let Parts { fields, start, end } = parts;
    let turn = search::turn(&batch[start..end], key);
    if turn == 0 {
        return Err(Fault::Missing);
    }
    let last = row::load(&batch[start..end], turn - 1);
    if !messages::same_key(key, last.key) {
        return Err(Fault::Missing);
    }
    let at = last.offset as usize;
    if start <= at {
        return Err(Fault::Batch);
    }
    match messages::next(table, l, fields, &batch[at..start]) {
        Err(_) => Err(Fault::Batch),
        Ok(message) => Ok(Part {
            from: at,
            len: message.len,
        }),
    }
}

// The last message of a store and product, found from the rows.
pub fn last(table: &[u8], batch: &[u8], key: Key) -> Result<Part, Fault>
    ensures { Searched table.now batch.now key result }
{
    let layout = table::check(table)?;
    let parts = take_apart(table, layout, batch)?;
    find(table, layout, parts, batch, key)
}

// So many bytes of a batch from a place on, or none if they would reach beyond it.
fn within<'a>(batch: &'a [u8], from: usize, len: usize) -> &'a [u8]
    ensures { result.now ≡ part_of batch.now (PartFound from len) }
{
    let size = batch.len();
    if size < from {
        return &batch[size..];
    }
    if size - from < len {
        return &batch[size..];
    }
    let end = from + len;
    &batch[from..end]
}

// The bytes of the message that was found, from the same batch and its answer.
pub fn part<'a>(batch: &'a [u8], found: Result<Part, Fault>) -> &'a [u8]
    ensures { result.now ≡ part_of batch.now found }
{
    match found {
        Ok(place) => within(batch, place.from, place.len),
        Err(_) => &batch[0..0],
    }
}

// ---- the whole check

// Judges a batch by its parts, with memory for a window of any batch.
fn judge_large(table: &[u8], l: Layout, f: Fields, front: &[u8], rows: &[u8]) -> bool
    requires { KeyedBy table.now l f }
    ensures { Judges (parts_in table.now l f front.now rows.now) result }
{
    let mut area = starts::large();
    starts::judge(table, l, f, front, rows, &mut area)
}

// Judges a batch by its parts. A small one takes little memory, since all of it is cleared first.
fn judge(table: &[u8], l: Layout, f: Fields, front: &[u8], rows: &[u8]) -> bool
    requires { KeyedBy table.now l f }
    ensures { Judges (parts_in table.now l f front.now rows.now) result }
{
    if starts::is_small(front.len()) {
        let mut area = starts::small();
        return starts::judge(table, l, f, front, rows, &mut area);
    }
    judge_large(table, l, f, front, rows)
}

// Whether a batch is good: it reads fully up to its rows, and these are one for each message, sorted, its own key and offset in it.
pub fn check(table: &[u8], batch: &[u8]) -> Result<(), Fault>
    ensures { result ≡ batch_check table.now batch.now }
{
    let layout = table::check(table)?;
    let Parts { fields, start, end } = take_apart(table, layout, batch)?;
    if judge(table, layout, fields, &batch[..start], &batch[start..end]) {
        return Ok(());
    }
    Err(Fault::Batch)
}

// ---- writing

// Writes a batch by its key fields, once all of it is judged.
fn write_by(
    table: &[u8],
    l: Layout,
    f: Fields,
    bytes: &[u8],
    store: usize,
    product: usize,
    out: &mut [u8],
) -> Result<usize, Fault>
    requires { Fitting table.now l f store product }
    ensures { Writes (made_by table.now l f bytes.now (length out.old)) out.old result out.new }
{
    let tally = laying::count(table, l, f, bytes)?;
    let count = tally.count;
    if !laying::sizes_fit(count, tally.last) {
        return Err(Fault::Batch);
    }
    let behind = 16 * count + TRAILER;
    let room = out.len();
    let full = Fault::Wire {
        why: Refusal::Full,
        place: 0,
    };
    if room < behind {
        return Err(full);
    }
    let front = bytes.len();
    if room - behind < front {
        return Err(full);
    }
    let end = front + behind;
    laying::lay(table, l, f, bytes, count, store, product, &mut out[..end]);
    Ok(end)
}

// Writes a batch of messages that stand end to end. Nothing is written unless all of it is.
pub fn write(
    table: &[u8],
    bytes: &[u8],
    store: usize,
    product: usize,
    out: &mut [u8],
) -> Result<usize, Fault>
    ensures { Writes (writes table.now bytes.now store product (length out.old)) out.old result out.new }
{
    let layout = table::check(table)?;
    let Some(fields) = messages::fields_of(table, layout, store, product) else {
        return Err(Fault::Fields);
    };
    write_by(table, layout, fields, bytes, store, product, out)
}

// ---- compaction

// Compacts a batch by its parts, once all of it is judged.
fn compact_by(
    table: &[u8],
    l: Layout,
    f: Fields,
    front: &[u8],
    rows: &[u8],
    area: &mut [u8],
    out: &mut [u8],
) -> Result<usize, Fault>
    requires keyed_by { KeyedBy table.now l f }
    requires area_nonzero { 0 < length area.old }
    ensures { Writes (compacted_by (parts_in table.now l f front.now rows.now) (length out.old)) out.old result out.new }
{
    if !starts::judge(table, l, f, front, rows, area) {
        return Err(Fault::Batch);
    }
    let surveyed = keeping::survey(table, l, f, front, rows, area);
    let count = surveyed.count;
    let len = surveyed.len;
    let room = out.len();
    if !keeping::has_room(room, count, len) {
        let full = Fault::Wire {
            why: Refusal::Full,
            place: 0,
        };
        return Err(full);
    }
    let total = len + 16 * count + TRAILER;
    keeping::lay(
        table,
        l,
        f,
        front,
        rows,
        area,
        count,
        len,
        &mut out[..total],
    );
    Ok(total)
}

// Compacts a batch by its parts, with memory for a window of any batch.
fn compact_large(
    table: &[u8],
    l: Layout,
    f: Fields,
    front: &[u8],
    rows: &[u8],
    out: &mut [u8],
) -> Result<usize, Fault>
    requires { KeyedBy table.now l f }
    ensures { Writes (compacted_by (parts_in table.now l f front.now rows.now) (length out.old)) out.old result out.new }
{
    let mut area = starts::large();
    compact_by(table, l, f, front, rows, &mut area, out)
}

// Compacts a batch by its parts, a small one with little memory.
fn compact_parts(
    table: &[u8],
    l: Layout,
    f: Fields,
    front: &[u8],
    rows: &[u8],
    out: &mut [u8],
) -> Result<usize, Fault>
    requires { KeyedBy table.now l f }
    ensures { Writes (compacted_by (parts_in table.now l f front.now rows.now) (length out.old)) out.old result out.new }
{
    if starts::is_small(front.len()) {
        let mut area = starts::small();
        return compact_by(table, l, f, front, rows, &mut area, out);
    }
    compact_large(table, l, f, front, rows, out)
}

// Writes a batch of only the last message of each store and product. Nothing is written unless all of it is.
pub fn compact(table: &[u8], batch: &[u8], out: &mut [u8]) -> Result<usize, Fault>
    ensures { Writes (compacts table.now batch.now (length out.old)) out.old result out.new }
{
    let layout = table::check(table)?;
    let Parts { fields, start, end } = take_apart(table, layout, batch)?;
    let front = &batch[..start];
    let rows = &batch[start..end];
    compact_parts(table, layout, fields, front, rows, out)
}

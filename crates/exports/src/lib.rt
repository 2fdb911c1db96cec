// The static library for C and Rust: each public call over plain numbers and slices, as include/reystavem.h declares it.
#![tactic(auto)]

ghost use Rattle.std.specs.Prelude.{length};
ghost use Rattle.wire.specs.Table.{check};
ghost use Rattle.wire.specs.Answers.{check_says, reads, reads_strict, takes, writes, asks};
ghost use Rattle.wire.specs.Sending.{sends};
ghost use Rattle.accumulator.specs.Feeding.{feed_lent, bridge_lent};
ghost use Rattle.desk.specs.Path.{finds};
ghost use Rattle.desk.specs.Differ.{compares};
ghost use Rattle.desk.specs.Batch.{checked_says, batch_check, writes as batch_writes};
ghost use Rattle.desk.specs.Compact.{compacts};
ghost use Rattle.desk.specs.Csv.{csv_export};
ghost use Rattle.telling.specs.Told.{Told, Took, Found};
ghost use Rattle.telling.specs.Marks.{waits};
ghost use Rattle.exports.specs.Calls.{Read, ReadOpen, Wrote, Asked, mark_of, Fed, Compared, BatchWrote, LastFound, CsvWrote, CsvImported};

use desk::Key;

#[unsafe(no_mangle)]
pub extern "C" fn reystavem_check(table: &[u8], place: &mut u64) -> u64
    ensures { Told (check_says (check table.now)) result place.new }
{
    let got = table::check(table);
    telling::checked(got, place)
}

#[unsafe(no_mangle)]
pub extern "C" fn reystavem_read(
    table: &[u8],
    message: &[u8],
    store: &mut [u64],
    place: &mut u64,
    count: &mut u64,
) -> u64
    ensures { Read (reads table.now message.now store.old) store.old result place.new count.new store.new }
{
    let got = reader::read(table, message, store);
    telling::reading(got, place, count)
}

#[unsafe(no_mangle)]
pub extern "C" fn reystavem_read_strict(
    table: &[u8],
    message: &[u8],
    store: &mut [u64],
    place: &mut u64,
    count: &mut u64,
) -> u64
    ensures { Read (reads_strict table.now message.now store.old) store.old result place.new count.new store.new }
{
    let got = reader::read_strict(table, message, store);
    telling::reading(got, place, count)
}

#[unsafe(no_mangle)]
pub extern "C" fn reystavem_read_open(
    table: &[u8],
    message: &[u8],
    store: &mut [u64],
    list: &mut [u64],
    place: &mut u64,
    count: &mut u64,
) -> u64
    ensures { ReadOpen (reads table.now message.now store.old) store.old list.old result place.new count.new store.new list.new }
{
    let got = open::read(table, message, store, list);
    telling::opened(got, place, count)
}

#[unsafe(no_mangle)]
pub extern "C" fn reystavem_read_open_strict(
    table: &[u8],
    message: &[u8],
    store: &mut [u64],
    list: &mut [u64],
    place: &mut u64,
    count: &mut u64,
) -> u64
    ensures { ReadOpen (reads_strict table.now message.now store.old) store.old list.old result place.new count.new store.new list.new }
{
    let got = open::read_strict(table, message, store, list);
    telling::opened(got, place, count)
}

#[unsafe(no_mangle)]
pub extern "C" fn reystavem_write(
    table: &[u8],
    words: &[u64],
    pool: &[u8],
    out: &mut [u8],
    place: &mut u64,
) -> u64
    ensures { Wrote (writes table.now words.now pool.now (length out.old)) out.old result place.new out.new }
{
    let got = writer::write(table, words, pool, out);
    telling::written(got, place)
}

#[unsafe(no_mangle)]
pub extern "C" fn reystavem_append(
    old_table: &[u8],
    new_table: &[u8],
    area: &mut [u8],
    place: &mut u64,
    which: &mut u64,
    yes: &mut u64,
) -> u64
    ensures { Asked (asks old_table.now new_table.now area.old) area.old result place.new which.new yes.new area.new }
{
    let got = append::appends(old_table, new_table, area);
    telling::asked(got, place, which, yes)
}

#[unsafe(no_mangle)]
pub extern "C" fn reystavem_feed(
    array: &mut [u8],
    chunk: &[u8],
    message: &mut [u8],
    idx: &mut u64,
    waiting: &mut u64,
    len: &mut u64,
    rest_from: &mut u64,
) -> u64
    ensures { Fed (feed_lent array.old idx.old (waits waiting.old) chunk.now message.old).lent (mark_of (feed_lent array.old idx.old (waits waiting.old) chunk.now message.old) waiting.old) chunk.now result idx.new waiting.new len.new rest_from.new array.new message.new }
{
    let before = *waiting;
    let waits = telling::is_waiting(before);
    let got = accumulator::feed_lent(array, *idx as usize, waits, chunk, message);
    let step = got.step;
    let answer = step.answer;
    *idx = step.idx as u64;
    *waiting = telling::mark_after(answer, before, got.waiting);
    *len = step.len as u64;
    *rest_from = step.used as u64;
    numbers::feed(answer)
}

#[unsafe(no_mangle)]
pub extern "C" fn reystavem_feed_bridge(
    array: &mut [u8],
    chunk: &[u8],
    message: &mut [u8],
    idx: &mut u64,
    waiting: &mut u64,
    len: &mut u64,
    rest_from: &mut u64,
) -> u64
    ensures { Fed (bridge_lent array.old idx.old chunk.now message.old) waiting.old chunk.now result idx.new waiting.new len.new rest_from.new array.new message.new }
{
    let fed = accumulator::feed_bridge_lent(array, *idx as usize, chunk, message);
    *idx = fed.idx as u64;
    *len = fed.len as u64;
    *rest_from = fed.used as u64;
    let answer = fed.answer;
    numbers::feed(answer)
}

#[unsafe(no_mangle)]
pub extern "C" fn reystavem_frame(message: &[u8], out: &mut [u8], place: &mut u64) -> u64
    ensures { Wrote (sends message.now (length out.old)) out.old result place.new out.new }
{
    let got = framer::frame(message, out);
    telling::written(got, place)
}

#[unsafe(no_mangle)]
pub extern "C" fn reystavem_take(
    kind: u64,
    message: &[u8],
    place: &mut u64,
    first: &mut u64,
    second: &mut u64,
    at: &mut u64,
) -> u64
    ensures { Took (takes kind message.now place.old) place.old result place.new first.new second.new at.new }
{
    let got = deserializer::take_at(kind, message, *place as usize);
    telling::taken(got, place, first, second, at)
}

#[unsafe(no_mangle)]
pub extern "C" fn reystavem_find(
    table: &[u8],
    path: &[u64],
    message: &[u8],
    place: &mut u64,
    first: &mut u64,
    second: &mut u64,
) -> u64
    ensures { Found (finds table.now path.now message.now) result place.new first.new second.new }
{
    let got = find::find(table, path, message);
    telling::found(got, place, first, second)
}

#[unsafe(no_mangle)]
pub extern "C" fn reystavem_compare(
    table: &[u8],
    one: &[u8],
    other: &[u8],
    list: &mut [u64],
    place: &mut u64,
    which: &mut u64,
    count: &mut u64,
) -> u64
    ensures { Compared (compares table.now one.now other.now) list.old result place.new which.new count.new list.new }
{
    let got = compare::compare(table, one, other, list);
    telling::compared(got, place, which, count)
}

#[unsafe(no_mangle)]
pub extern "C" fn reystavem_batch_write(
    table: &[u8],
    messages: &[u8],
    store_field: u64,
    product_field: u64,
    out: &mut [u8],
    place: &mut u64,
) -> u64
    ensures { BatchWrote (batch_writes table.now messages.now store_field product_field (length out.old)) out.old result place.new out.new }
{
    let store = store_field as usize;
    let product = product_field as usize;
    let got = batch::write(table, messages, store, product, out);
    telling::batch_written(got, place)
}

#[unsafe(no_mangle)]
pub extern "C" fn reystavem_batch_check(table: &[u8], batch: &[u8], place: &mut u64) -> u64
    ensures { Told (checked_says (batch_check table.now batch.now)) result place.new }
{
    let got = batch::check(table, batch);
    telling::batch_checked(got, place)
}

#[unsafe(no_mangle)]
pub extern "C" fn reystavem_batch_last(
    table: &[u8],
    batch: &[u8],
    store: u64,
    product: u64,
    place: &mut u64,
    from: &mut u64,
    len: &mut u64,
) -> u64
    ensures { LastFound table.now batch.now store product result place.new from.new len.new }
{
    let key = Key { store, product };
    let got = batch::last(table, batch, key);
    telling::part(got, place, from, len)
}

#[unsafe(no_mangle)]
pub extern "C" fn reystavem_batch_compact(
    table: &[u8],
    batch: &[u8],
    out: &mut [u8],
    place: &mut u64,
) -> u64
    ensures { BatchWrote (compacts table.now batch.now (length out.old)) out.old result place.new out.new }
{
    let got = batch::compact(table, batch, out);
    telling::batch_written(got, place)
}

#[unsafe(no_mangle)]
pub extern "C" fn reystavem_csv_export(
    table: &[u8],
    message: &[u8],
    out: &mut [u8],
    place: &mut u64,
) -> u64
    ensures { CsvWrote (csv_export table.now message.now (length out.old)) out.old result place.new out.new }
{
    let got = csv_rows::export(table, message, out);
    telling::row(got, place)
}

#[unsafe(no_mangle)]
pub extern "C" fn reystavem_csv_import(
    table: &[u8],
    row: &[u8],
    out: &mut [u8],
    place: &mut u64,
) -> u64
    ensures { CsvImported table.now row.now out.old result place.new out.new }
{
    let got = csv_rows::import(table, row, out);
    telling::row(got, place)
}

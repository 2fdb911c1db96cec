// Writing a value list by a table: one pass judges the list, measures its form and keeps it in a room, from which it is
// copied; a second one writes a form that is longer than its room. A text or bytes alone is measured and put without one.
#![tactic(auto)]

ghost use Rattle.std.specs.Prelude.{◌≡◌, ◌≤◌, length};
ghost use Rattle.wire.specs.Checked.{Good};
ghost use Rattle.wire.specs.Table.{kind_of, shape_of};
ghost use Rattle.wire.specs.Table.{check as check_of};
ghost use Rattle.wire.specs.Writing.{write as write_shape};
ghost use Rattle.wire.specs.Answers.{words_per, formed, writes};
ghost use Rattle.laws.specs.Answered.{Writes};
ghost use Rattle.write_list.specs.Steps.{entries, write_leaf};
ghost use Rattle.writer.specs.Promise.{Kept};

use wire::{Layout, Refusal, RefusedAt};
use write_list::{Ahead, Done, Misfit};

// The rooms in which the first pass keeps a form.
const SHORT: usize = 64;

const MIDDLE: usize = 2048;

const LONG: usize = 16384;

// So many words at most has a list for the shortest room, and one for the middle room. A larger room takes longer to clear.
const FEW: usize = 16 * entry::WORDS;

const MANY: usize = 256 * entry::WORDS;

// ---- the two passes

// A list of whole entries, of which so much is kept in a room. The first pass goes on from there.
fn write_kept(
    table: &[u8],
    l: Layout,
    ahead: Ahead,
    words: &[u64],
    pool: &[u8],
    kept: &mut [u8],
    out: &mut [u8],
) -> Result<usize, RefusedAt>
    requires table_value { check_of table.now ≡ Good l }
    requires kept { Kept table.now l words.now pool.now ahead kept.old }
    ensures { Writes (formed (length out.old) (write_shape (shape_of table.now l) pool.now (entries words.now 0))) out.old result out.new }
{
    let got = write_list::put_rest(table, l, ahead, words, pool, kept, false);
    match got {
        Err(misfit) => Err(RefusedAt {
            why: Refusal::Values,
            place: misfit.at,
        }),
        Ok(done) => {
            let used = done.used;
            if done.at < entry::room(words.len()) {
                return Err(RefusedAt {
                    why: Refusal::Values,
                    place: done.at,
                });
            }
            if out.len() < used {
                return Err(RefusedAt {
                    why: Refusal::Full,
                    place: 0,
                });
            }
            if used <= kept.len() {
                output::put_bytes(&kept[..used], out, 0);
                return Ok(used);
            }
            let nothing = write_list::put_nothing(table, l);
            let _ = write_list::put_rest(table, l, nothing, words, pool, out, true);
            Ok(used)
        }
    }
}

// ---- the rooms

// A list of whole entries, with the room that its form mostly fits. A short one goes on in the room in which it was begun.
fn write_whole(
    table: &[u8],
    l: Layout,
    ahead: Ahead,
    words: &[u64],
    pool: &[u8],
    small: &mut [u8],
    out: &mut [u8],
) -> Result<usize, RefusedAt>
    requires table_value { check_of table.now ≡ Good l }
    requires kept { Kept table.now l words.now pool.now ahead small.old }
    ensures { Writes (formed (length out.old) (write_shape (shape_of table.now l) pool.now (entries words.now 0))) out.old result out.new }
{
    let len = words.len();
    if len <= FEW {
        return write_kept(table, l, ahead, words, pool, small, out);
    }
    let nothing = write_list::put_nothing(table, l);
    if len <= MANY {
        let mut middle: [u8; MIDDLE] = [0; MIDDLE];
        return write_kept(table, l, nothing, words, pool, &mut middle, out);
    }
    let mut long: [u8; LONG] = [0; LONG];
    write_kept(table, l, nothing, words, pool, &mut long, out)
}

// Any list, of which so much is kept in a short room.
fn write_begun(
    table: &[u8],
    l: Layout,
    ahead: Ahead,
    words: &[u64],
    pool: &[u8],
    small: &mut [u8],
    out: &mut [u8],
) -> Result<usize, RefusedAt>
    requires table_value { check_of table.now ≡ Good l }
    requires kept { Kept table.now l words.now pool.now ahead small.old }
    ensures { Writes (writes table.now words.now pool.now (length out.old)) out.old result out.new }
{
    if entry::whole(words.len()) {
        return write_whole(table, l, ahead, words, pool, small, out);
    }
    Err(RefusedAt {
        why: Refusal::Values,
        place: entry::room(words.len()),
    })
}

// A list that is a text or bytes alone needs no room: it is measured, and then put.
fn write_alone(number: u8, words: &[u64], pool: &[u8], out: &mut [u8]) -> Result<usize, RefusedAt>
    requires le_number { (12 ≤ number) × (number ≤ 13) }
    requires words_len { length words.now ≡ words_per }
    ensures { Writes (formed (length out.old) (write_leaf (kind_of number) pool.now (entries words.now 0))) out.old result out.new }
{
    let first = entry::first(words, 0);
    let second = entry::second(words, 0);
    let Some(n) = write_item::measure_pooled(number, first, second, pool) else {
        return Err(RefusedAt {
            why: Refusal::Values,
            place: 0,
        });
    };
    if out.len() < n {
        return Err(RefusedAt {
            why: Refusal::Full,
            place: 0,
        });
    }
    write_item::put_part(first, second, pool, out, 0);
    Ok(n)
}

// ---- by the table

// A list of leaves only, as most short ones are, needs neither the cycle nor a second pass. Any other is left to `write_begun`,
// by two calls: of one alone the compiler would make a part of this function, and every list would pay for the rooms. It is
// lent the slices as parts: to lend them as they came, every list would first copy where they lie.
fn write_list(
    table: &[u8],
    l: Layout,
    words: &[u64],
    pool: &[u8],
    out: &mut [u8],
) -> Result<usize, RefusedAt>
    requires { check_of table.now ≡ Good l }
    ensures { Writes (writes table.now words.now pool.now (length out.old)) out.old result out.new }
{
    let len = words.len();
    if len == entry::WORDS {
        let number = table::kind_at(table, l, l.root);
        if 12 <= number {
            if number <= 13 {
                return write_alone(number, words, pool, out);
            }
        }
    }
    let mut small: [u8; SHORT] = [0; SHORT];
    if FEW < len {
        let nothing = write_list::put_nothing(table, l);
        return write_begun(
            &table[0..],
            l,
            nothing,
            &words[0..],
            &pool[0..],
            &mut small,
            out,
        );
    }
    let front = write_list::put_front(table, l, words, pool, &mut small);
    if front.left == 0 {
        // so few that the product is a word
        if front.at <= FEW {
            if entry::WORDS * front.at == len {
                let n = front.used;
                if n <= SHORT {
                    if n <= out.len() {
                        output::put_bytes(&small[..n], out, 0);
                        return Ok(n);
                    }
                }
            }
        }
    }
    write_begun(
        &table[0..],
        l,
        front,
        &words[0..],
        &pool[0..],
        &mut small,
        out,
    )
}

// Writes a value list by a table: how many bytes, which stand in front in the output, or why not.
pub fn write(table: &[u8], words: &[u64], pool: &[u8], out: &mut [u8]) -> Result<usize, RefusedAt>
    ensures { Writes (writes table.now words.now pool.now (length out.old)) out.old result out.new }
{
    let layout = table::check(table)?;
    write_list(table, layout, words, pool, out)
}

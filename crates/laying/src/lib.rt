// What writing a batch needs: its messages counted and its numbers judged before a byte is written, and then its rows.
#![tactic(auto)]

ghost use Rattle.std.specs.Prelude.{◌≡◌, ◌+◌, ◌*◌, ◌^◌, ◌≤◌, length, ltb};
ghost use Rattle.std.proofs.lemmas.List.Edits.{sets};
ghost use Rattle.wire.specs.Numbers.{little_bytes};
ghost use Rattle.wire.specs.Tests.{both};
ghost use Rattle.desk.specs.Messages.{split};
ghost use Rattle.messages.specs.Fields.{keys_of, KeyedBy};
ghost use Rattle.laying.specs.Counts.{Counts, Whole, rows_for, ending, Laid, batch_for};

use desk::Row;
use messages::Fields;
use wire::{Layout, RefusedAt};

// How many rows were laid, and where the last of them stands.
#[derive(Clone, Copy)]
pub struct Tally {
    pub count: usize,
    pub last: usize,
}

// The largest offset that a row has bytes for, and the most rows whose distance has.
const FARTHEST: usize = 4294967295;

const MOST: usize = 268435455;

// Counts the messages of some bytes.
pub fn count(table: &[u8], l: Layout, f: Fields, bytes: &[u8]) -> Result<Tally, RefusedAt>
    requires { KeyedBy table.now l f }
    ensures { Counts (split (keys_of table.now l f) bytes.now) result }
{
    let mut at = 0;
    let mut many = 0;
    let mut last = 0;
    while at < bytes.len() {
        match messages::next(table, l, f, &bytes[at..]) {
            Err(refused) => {
                return Err(RefusedAt {
                    why: refused.why,
                    place: at + refused.place,
                });
            }
            Ok(message) => {
                last = at;
                at = at + message.len;
                many = many + 1;
            }
        }
    }
    Ok(Tally { count: many, last })
}

// Whether an offset, a count of rows and their distance fit their fields.
pub fn sizes_fit(count: usize, last: usize) -> bool
    ensures { result ≡ both (ltb last (2 ^ 32)) (both (ltb count (2 ^ 32)) (ltb (16 * count) (2 ^ 32))) }
{
    last <= FARTHEST && count <= MOST
}

// Puts a row for each message, in the messages' order.
pub fn put_rows(table: &[u8], l: Layout, f: Fields, bytes: &[u8], rows: &mut [u8])
    requires keyed_by { KeyedBy table.now l f }
    requires whole { Whole (split (keys_of table.now l f) bytes.now) rows.old }
    ensures { rows.new ≡ rows_for (split (keys_of table.now l f) bytes.now) }
{
    let mut at = 0;
    let mut many = 0;
    while at < bytes.len() {
        let Ok(message) = messages::next(table, l, f, &bytes[at..]) else {
            return;
        };
        let offset = at as u64;
        let row = Row {
            key: message.key,
            offset,
        };
        row::put(rows, many, row);
        at = at + message.len;
        many = many + 1;
    }
}

// Puts a number into two bytes.
fn put_quarter(out: &mut [u8], at: usize, x: usize)
    requires { at + 2 ≤ length out.old }
    ensures { out.new ≡ sets out.old at (little_bytes 2 x) }
{
    let b = x / 256;
    out[at] = (x % 256) as u8;
    out[at + 1] = (b % 256) as u8;
}

// Puts a trailer.
pub fn put_trailer(out: &mut [u8], count: u64, store: usize, product: usize)
    requires out_len { length out.old ≡ 12 }
    requires count_bound { 16 * count ≤ 18446744073709551615 }
    ensures { out.new ≡ ending count store product }
{
    row::put_half(out, 0, count);
    row::put_half(out, 4, 16 * count);
    put_quarter(out, 8, store);
    put_quarter(out, 10, product);
}

// Lays a whole batch out: its messages, their rows sorted, and the trailer.
pub fn lay(
    table: &[u8],
    l: Layout,
    f: Fields,
    bytes: &[u8],
    count: usize,
    store: usize,
    product: usize,
    out: &mut [u8],
)
    requires keyed_by { KeyedBy table.now l f }
    requires laid { Laid (split (keys_of table.now l f) bytes.now) bytes.now count out.old }
    ensures { out.new ≡ batch_for (split (keys_of table.now l f) bytes.now) bytes.now count store product }
{
    let start = bytes.len();
    let end = start + 16 * count;
    let many = count as u64;
    output::put_bytes(bytes, out, 0);
    put_rows(table, l, f, bytes, &mut out[start..end]);
    sorting::sort(&mut out[start..end]);
    put_trailer(&mut out[end..], many, store, product);
}

// The rows of a batch in memory, sixteen bytes each: one read, one put, and which of two comes first. What a row is stands in
// desk's specs/Rows.antt.
#![tactic(auto)]

ghost use Rattle.std.specs.Prelude.{◌≡◌, ◌+◌, ◌*◌, ◌≤◌, ◌<◌, ltb, length};
ghost use Rattle.std.proofs.lemmas.List.Edits.{sets};
ghost use Rattle.wire.specs.Numbers.{little_bytes};
ghost use Rattle.desk.specs.Rows.{number_at, row_bytes};
ghost use Rattle.batches.specs.Fit.{RowFits};
ghost use Rattle.row.specs.Ranks.{Byte, row_count, rank, Loaded};

use desk::{Key, Row};

fn byte(rows: &[u8], at: usize) -> u64
    requires { at < length rows.now }
    ensures { Byte rows.now at result }
{
    rows[at] as u64
}

// The number in four bytes.
pub fn half(rows: &[u8], at: usize) -> u64
    requires { at + 4 ≤ length rows.now }
    ensures { result ≡ number_at 4 at rows.now }
{
    let a = byte(rows, at);
    let b = byte(rows, at + 1);
    let c = byte(rows, at + 2);
    let d = byte(rows, at + 3);
    a + 256 * (b + 256 * (c + 256 * d))
}

// The number in eight bytes.
pub fn word(rows: &[u8], at: usize) -> u64
    requires { at + 8 ≤ length rows.now }
    ensures { result ≡ number_at 8 at rows.now }
{
    let a = byte(rows, at);
    let b = byte(rows, at + 1);
    let c = byte(rows, at + 2);
    let d = byte(rows, at + 3);
    let e = byte(rows, at + 4);
    let f = byte(rows, at + 5);
    let g = byte(rows, at + 6);
    let h = byte(rows, at + 7);
    a + 256 * (b + 256 * (c + 256 * (d + 256 * (e + 256 * (f + 256 * (g + 256 * h))))))
}

// The row at i.
pub fn load(rows: &[u8], i: usize) -> Row
    requires { i < row_count rows.now }
    ensures { Loaded rows.now i result }
{
    let at = i * 16;
    let store = half(rows, at);
    let product = word(rows, at + 4);
    let offset = half(rows, at + 12);
    let key = Key { store, product };
    Row { key, offset }
}

// Puts a number into four bytes.
pub fn put_half(rows: &mut [u8], at: usize, x: u64)
    requires { at + 4 ≤ length rows.old }
    ensures { rows.new ≡ sets rows.old at (little_bytes 4 x) }
{
    let b = x / 256;
    let c = b / 256;
    let d = c / 256;
    rows[at] = (x % 256) as u8;
    rows[at + 1] = (b % 256) as u8;
    rows[at + 2] = (c % 256) as u8;
    rows[at + 3] = (d % 256) as u8;
}

fn put_word(rows: &mut [u8], at: usize, x: u64)
    requires { at + 8 ≤ length rows.old }
    ensures { rows.new ≡ sets rows.old at (little_bytes 8 x) }
{
    let b = x / 256;
    let c = b / 256;
    let d = c / 256;
    let e = d / 256;
    let f = e / 256;
    let g = f / 256;
    let h = g / 256;
    rows[at] = (x % 256) as u8;
    rows[at + 1] = (b % 256) as u8;
    rows[at + 2] = (c % 256) as u8;
    rows[at + 3] = (d % 256) as u8;
    rows[at + 4] = (e % 256) as u8;
    rows[at + 5] = (f % 256) as u8;
    rows[at + 6] = (g % 256) as u8;
    rows[at + 7] = (h % 256) as u8;
}

// Puts a row at i.
pub fn put(rows: &mut [u8], i: usize, row: Row)
    requires { i < row_count rows.old }
    ensures { rows.new ≡ sets rows.old (16 * i) (row_bytes row) }
{
    let at = i * 16;
    put_half(rows, at, row.key.store);
    put_word(rows, at + 4, row.key.product);
    put_half(rows, at + 12, row.offset);
}

// A row stands before another that is not the same.
pub fn below(a: Row, b: Row) -> bool
    requires { (RowFits a) × (RowFits b) }
    ensures { result ≡ ltb (rank a) (rank b) }
{
    if a.key.store != b.key.store {
        return a.key.store < b.key.store;
    }
    if a.key.product != b.key.product {
        return a.key.product < b.key.product;
    }
    a.offset < b.offset
}

// A search by halves in the rows of a batch: where they turn from not after a key to after it.
#![tactic(auto)]

ghost use Rattle.std.specs.Prelude.{◌≡◌};
ghost use Rattle.batches.specs.Search.{key_not_after, Turns};
ghost use Rattle.row.specs.Ranks.{rows_in};

use desk::Key;

// A key does not stand after another.
fn not_after(a: Key, b: Key) -> bool
    ensures { result ≡ key_not_after a b }
{
    if a.store == b.store {
        return a.product <= b.product;
    }
    a.store < b.store
}

// Where a search for a key ends: the row in front is not after it, and the row there is. So it ends in rows of any order.
pub fn turn(rows: &[u8], key: Key) -> usize
    ensures { Turns key (rows_in rows.now) result }
{
    let mut low = 0;
    let mut high = rows.len() / 16;
    while low < high {
        let half = low + (high - low) / 2;
        let found = row::load(rows, half);
        if not_after(found.key, key) {
            low = half + 1;
        } else {
            high = half;
        }
    }
    low
}

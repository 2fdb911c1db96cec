// Bytes put behind the first `used` of a lent output, as far as it has places.
#![tactic(auto)]

ghost use Rattle.std.specs.Prelude.{◌≡◌, [], ◌∷◌, ◌+◌, ◌≤◌, length};
ghost use Rattle.wire.specs.Numbers.{shortest};
ghost use Rattle.wire.specs.Writing.{with_count};
ghost use Rattle.output.specs.Bytes.{cap, Places, Puts};

use varint::{U64, Width};

// A sum that stops at the largest word. Many entries may name one part of the pool, so lengths can add up to more.
pub fn add(used: usize, n: usize) -> usize
    ensures { result ≡ cap (used + n) }
{
    used.saturating_add(n)
}

// How many of n bytes have a place behind the first `used`, among `len` places.
pub fn places(len: usize, used: usize, n: usize) -> usize
    ensures { Places len used n result }
{
    len.saturating_sub(used).min(n)
}

// Stores bytes behind the first `used` of `out`, as far as it has places, and returns how many there are now.
pub fn put_bytes(bytes: &[u8], out: &mut [u8], used: usize) -> usize
    ensures { Puts bytes.now used out.old result out.new }
{
    let count = places(out.len(), used, bytes.len());
    for i in 0..count {
        out[used + i] = bytes[i];
    }
    add(used, bytes.len())
}

pub fn put_byte(b: u8, out: &mut [u8], used: usize) -> usize
    ensures { Puts (b ∷ []) used out.old result out.new }
{
    let end = add(used, 1);
    if used < out.len() {
        out[used] = b;
    }
    end
}

// A varint, where even the longest has its places.
pub fn put_inside(x: u64, out: &mut [u8], used: usize) -> usize
    requires { used + 10 ≤ length out.old }
    ensures { Puts (shortest x) used out.old result out.new }
{
    let mut at = used;
    let mut rest = x;
    while 128 <= rest {
        let b = (rest % 128 + 128) as u8;
        out[at] = b;
        rest = rest / 128;
        at = at + 1;
    }
    let b = rest as u8;
    out[at] = b;
    at + 1
}

// Most have all their places or, in the first pass, none; each place is tested only between the two.
pub fn put_varint(x: u64, out: &mut [u8], used: usize) -> usize
    ensures { Puts (shortest x) used out.old result out.new }
{
    let len = out.len();
    if len <= used {
        let size = varint::size(x);
        return add(used, size);
    }
    if U64::MOST <= len - used {
        return put_inside(x, out, used);
    }
    let n = varint::put(out, used, x);
    add(used, n)
}

// Bytes behind their count.
pub fn put_counted(bytes: &[u8], out: &mut [u8], used: usize) -> usize
    ensures { Puts (with_count bytes.now) used out.old result out.new }
{
    let count = bytes.len() as u64;
    let next = put_varint(count, out, used);
    put_bytes(bytes, out, next)
}

// An item's own bytes: whether some value has its entry, and the bytes of one that some value has, put behind others in a lent output.
#![tactic(auto)]

ghost use Rattle.std.specs.Prelude.{◌≡◌, true, false, [], ◌+◌, ◌≤◌, length, ltb, leb};
ghost use Rattle.wire.specs.Tests.{both};
ghost use Rattle.wire.specs.Shape.{bits, size, unsigned};
ghost use Rattle.wire.specs.Numbers.{is_word, little_bytes, in_order};
ghost use Rattle.wire.specs.Text.{is_char, char_bytes};
ghost use Rattle.wire.specs.Table.{kind_of};
ghost use Rattle.wire.specs.Values.{is_pooled};
ghost use Rattle.wire.specs.Values.{part as part_of};
ghost use Rattle.wire.specs.Reading.{is_content};
ghost use Rattle.wire.specs.Writing.{with_count, head_bytes};
ghost use Rattle.laws.specs.KindRanges.{IsInner, IsLeaf};
ghost use Rattle.zigzag.specs.Widths.{width_of};
ghost use Rattle.fixint.specs.Sizes.{order_of};
ghost use Rattle.texts.specs.Contents.{content_if};
ghost use Rattle.output.specs.Bytes.{Puts};
ghost use Rattle.write_item.specs.Own.{sign_at, width_at, is_some, Known, JudgesLeaf, Judges, Lets, Fits, Ready, Spells, SpellsEntry, Pools};

use varint::{U64, Width};

// ---- chars, texts and bytes

fn put_char(first: u64, out: &mut [u8], used: usize) -> usize
    requires { is_char first ≡ true }
    ensures { Puts (with_count (char_bytes first)) used out.old result out.new }
{
    let form = utf8::char_bytes(first);
    let bytes = form.bytes;
    let len = form.len;
    output::put_counted(&bytes[..len], out, used)
}

// A part of the pool.
pub fn put_part(first: u64, second: u64, pool: &[u8], out: &mut [u8], used: usize) -> usize
    requires { first + second ≤ length pool.now }
    ensures { Puts (with_count (part_of pool.now first second)) used out.old result out.new }
{
    let start = first as usize;
    let end = start + second as usize;
    output::put_counted(&pool[start..end], out, used)
}

// ---- six integers, in the order of their kinds: signed of 16, 32 and 64 bits, and then unsigned

// Whether a word stands for an unsigned number of so many bits. Any that is no width stands for 64.
fn is_unsigned(bits: u64, first: u64) -> bool
    ensures { result ≡ is_word unsigned (width_of bits) first }
{
    match bits {
        8 => first < 0x100,
        16 => first < 0x1_0000,
        32 => first < 0x1_0000_0000,
        _ => true,
    }
}

// Whether a word stands for a number of the k-th.
fn is_sixth(k: u8, first: u64) -> bool
    requires { k ≤ 5 }
    ensures { result ≡ is_word (sign_at k) (bits (width_at k)) first }
{
    match k {
        0 => zigzag::is_signed(16, first),
        1 => zigzag::is_signed(32, first),
        2 => zigzag::is_signed(64, first),
        3 => is_unsigned(16, first),
        4 => is_unsigned(32, first),
        _ => true,
    }
}

// The bytes of a number of the k-th, of fixed size.
fn put_sixth(k: u8, big: bool, first: u64, out: &mut [u8], used: usize) -> usize
    ensures { Puts (in_order (order_of big) (little_bytes (size (width_at k)) first)) used out.old result out.new }
{
    match k % 3 {
        0 => output::put_bytes(&fixint::bytes::<2>(first, big), out, used),
        1 => output::put_bytes(&fixint::bytes::<4>(first, big), out, used),
        _ => output::put_bytes(&fixint::bytes::<8>(first, big), out, used),
    }
}

// ---- whether some value has an entry

// A bool's or a signed integer's.
fn fits_signed(number: u8, first: u64) -> bool
    requires { number ≤ 4 }
    ensures { JudgesLeaf (kind_of number) first result }
{
    match number {
        0 => first <= 1,
        1 => zigzag::is_signed(8, first),
        _ => is_sixth(number - 2, first),
    }
}

// That of an unsigned integer of a byte or written as a varint.
fn fits_unsigned(number: u8, first: u64) -> bool
    requires { (5 ≤ number) × (number ≤ 8) }
    ensures { JudgesLeaf (kind_of number) first result }
{
    match number {
        5 => is_unsigned(8, first),
        _ => is_sixth(number - 3, first),
    }
}

fn fits_int(number: u8, first: u64) -> bool
    requires { number ≤ 8 }
    ensures { JudgesLeaf (kind_of number) first result }
{
    match number {
        0..=4 => fits_signed(number, first),
        _ => fits_unsigned(number, first),
    }
}

// That of another leaf but a text and bytes.
fn fits_other(number: u8, first: u64) -> bool
    requires leaf { IsLeaf number }
    requires le_number { 9 ≤ number }
    requires number_value { is_pooled (kind_of number) ≡ false }
    ensures { JudgesLeaf (kind_of number) first result }
{
    match number {
        9 => is_unsigned(32, first),
        10 => true,
        11 => utf8::is_char(first),
        12..=14 => first == 0,
        20..=25 => is_sixth(number - 20, first),
        26..=31 => is_sixth(number - 26, first),
        _ => false,
    }
}

// A text's or bytes': a part of the pool. A hostile offset is not added to anything.
fn fits_part(first: u64, second: u64, pool: &[u8], text: bool) -> bool
    ensures { result ≡ both (leb (first + second) (length pool.now)) (is_content (content_if text) (part_of pool.now first second)) }
{
    let len = pool.len() as u64;
    if len < first || len - first < second {
        return false;
    }
    let start = first as usize;
    let end = start + second as usize;
    texts::is_content(&pool[start..end], text)
}

// That of another leaf: but for a text and bytes, the second word is 0.
fn fits_rest(number: u8, first: u64, second: u64, pool: &[u8]) -> bool
    requires leaf { IsLeaf number }
    requires le_number { 9 ≤ number }
    ensures { result ≡ is_some (head_bytes (kind_of number) 0 pool.now first second) }
{
    match number {
        12 => fits_part(first, second, pool, true),
        13 => fits_part(first, second, pool, false),
        _ => second == 0 && fits_other(number, first),
    }
}

// Any leaf's. One that was judged is not judged again. The integers stand first, as the most usual.
pub fn fits_leaf(number: u8, first: u64, second: u64, pool: &[u8], judged: bool) -> bool
    requires leaf { IsLeaf number }
    requires known { Known judged (head_bytes (kind_of number) 0 pool.now first second) }
    ensures { result ≡ is_some (head_bytes (kind_of number) 0 pool.now first second) }
{
    if judged {
        return true;
    }
    if 9 <= number {
        return fits_rest(number, first, second, pool);
    }
    if second == 0 {
        return fits_int(number, first);
    }
    false
}

fn is_variant(width: usize, first: u64) -> bool
    ensures { result ≡ both (ltb first width) (is_word unsigned 32 first) }
{
    first < width as u64 && first < 0x1_0000_0000
}

// That of an item with so many children, whose second word is 0.
fn fits_first(number: u8, width: usize, first: u64) -> bool
    requires { IsInner number }
    ensures { Judges (kind_of number) width first result }
{
    match number {
        15 => first <= 1,
        18 => first == 0,
        19 => is_variant(width, first),
        _ => true,
    }
}

// That of an item with so many children. One that was judged is not judged again.
pub fn fits_inner(number: u8, width: usize, first: u64, second: u64, judged: bool) -> bool
    requires { IsInner number }
    ensures { Lets judged (kind_of number) width first second result }
{
    if judged {
        return true;
    }
    if second == 0 {
        return fits_first(number, width, first);
    }
    false
}

// ---- an item's own bytes, whose entry some value has

// A bool's or a signed integer's.
fn put_signed(number: u8, first: u64, out: &mut [u8], used: usize) -> usize
    requires { number ≤ 4 }
    ensures { Spells (kind_of number) first used out.old result out.new }
{
    match number {
        0 | 1 => output::put_byte((first % 256) as u8, out, used),
        _ => output::put_varint(zigzag::zigzag(first), out, used),
    }
}

// An unsigned integer's, of a byte or written as a varint.
fn put_unsigned(number: u8, first: u64, out: &mut [u8], used: usize) -> usize
    requires { (5 ≤ number) × (number ≤ 8) }
    ensures { Spells (kind_of number) first used out.old result out.new }
{
    match number {
        5 => output::put_byte((first % 256) as u8, out, used),
        _ => output::put_varint(first, out, used),
    }
}

fn put_int(number: u8, first: u64, out: &mut [u8], used: usize) -> usize
    requires { number ≤ 8 }
    ensures { Spells (kind_of number) first used out.old result out.new }
{
    match number {
        0..=4 => put_signed(number, first, out, used),
        _ => put_unsigned(number, first, out, used),
    }
}

// That of an item with children.
pub fn put_inner(number: u8, first: u64, out: &mut [u8], used: usize) -> usize
    requires { IsInner number }
    ensures { Spells (kind_of number) first used out.old result out.new }
{
    match number {
        15 => output::put_byte((first % 256) as u8, out, used),
        18 => used,
        _ => output::put_varint(first, out, used),
    }
}

// Another leaf's.
fn put_rest(number: u8, first: u64, second: u64, pool: &[u8], out: &mut [u8], used: usize) -> usize
    requires leaf { IsLeaf number }
    requires le_number { 9 ≤ number }
    requires fits { Fits (kind_of number) pool.now first second }
    ensures { SpellsEntry (kind_of number) pool.now first second used out.old result out.new }
{
    match number {
        9 => put_sixth(4, false, first, out, used),
        10 => put_sixth(5, false, first, out, used),
        11 => put_char(first, out, used),
        12 | 13 => put_part(first, second, pool, out, used),
        14 => used,
        20..=25 => put_sixth(number - 20, false, first, out, used),
        26..=31 => put_sixth(number - 26, true, first, out, used),
        _ => used,
    }
}

pub fn put_leaf(
    number: u8,
    first: u64,
    second: u64,
    pool: &[u8],
    out: &mut [u8],
    used: usize,
) -> usize
    requires leaf { IsLeaf number }
    requires fits { Fits (kind_of number) pool.now first second }
    ensures { SpellsEntry (kind_of number) pool.now first second used out.old result out.new }
{
    if 9 <= number {
        return put_rest(number, first, second, pool, out, used);
    }
    put_int(number, first, out, used)
}

// ---- a text or bytes, judged and put at once

pub fn put_pooled(
    number: u8,
    first: u64,
    second: u64,
    pool: &[u8],
    out: &mut [u8],
    used: usize,
) -> Option<usize>
    requires { (12 ≤ number) × (number ≤ 13) }
    ensures { Pools number pool.now first second used out.old result out.new }
{
    let ok = fits_part(first, second, pool, number == 12);
    if !ok {
        return None;
    }
    Some(put_part(first, second, pool, out, used))
}

// The same, with no place for any byte: it is judged, and its bytes are counted.
pub fn measure_pooled(number: u8, first: u64, second: u64, pool: &[u8]) -> Option<usize>
    requires { (12 ≤ number) × (number ≤ 13) }
    ensures { Pools number pool.now first second 0 [] result [] }
{
    let fits = fits_part(first, second, pool, number == 12);
    if !fits {
        return None;
    }
    let size = varint::size(second);
    Some(output::add(size, second as usize))
}

// ---- an integer that has its places

// Whether an entry is that of an integer that some value has, where so many places are left.
pub fn is_ready(number: u8, words: &[u64], at: usize, room: usize) -> bool
    ensures { Ready number words.now at room result }
{
    if 9 <= number {
        return false;
    }
    if room < U64::MOST {
        return false;
    }
    if entry::room(words.len()) <= at {
        return false;
    }
    let first = entry::first(words, at);
    let second = entry::second(words, at);
    if second == 0 {
        return fits_int(number, first);
    }
    false
}

// An integer's bytes, where even the longest varint has its places.
pub fn put_ready(number: u8, first: u64, out: &mut [u8], used: usize) -> usize
    requires number_bound { number ≤ 8 }
    requires used_in_bounds { used + 10 ≤ length out.old }
    ensures { Spells (kind_of number) first used out.old result out.new }
{
    match number {
        0 | 1 => output::put_byte((first % 256) as u8, out, used),
        2..=4 => output::put_inside(zigzag::zigzag(first), out, used),
        5 => output::put_byte((first % 256) as u8, out, used),
        _ => output::put_inside(first, out, used),
    }
}

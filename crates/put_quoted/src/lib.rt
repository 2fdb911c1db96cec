// A char, a text or bytes of a CSV row, between quotes: laid behind the first `used` bytes of a lent output where there is room, and
// counted in any case. Their one spelling stands in desk's specs/Csv.antt.
#![tactic(auto)]

ghost use Rattle.std.specs.Prelude.{◌≡◌, true, [], ◌∷◌, ◌+◌, ◌≤◌, ltb, eqb, length};
ghost use Rattle.std.proofs.lemmas.List.Edits.{sets};
ghost use Rattle.wire.specs.Tests.{pick};
ghost use Rattle.wire.specs.Text.{is_char, char_bytes};
ghost use Rattle.desk.specs.Csv.{quote, doubled, quoted, hexes};
ghost use Rattle.put_number.specs.Lays.{Lays};

const QUOTE: u8 = b'"';

// ---- texts and chars

// How many bytes more a byte of a text has in a row: a quote is doubled.
fn more(b: u8) -> usize
    ensures { (1 + result ≡ length (doubled (b ∷ []))) × (result ≤ 1) }
{
    if b == QUOTE {
        return 1;
    }
    0
}

// How many bytes more a text has in a row, byte by byte.
fn count_quotes(bytes: &[u8]) -> usize
    ensures { (length bytes.now + result ≡ length (doubled bytes.now)) × (result ≤ length bytes.now) }
{
    let mut n: usize = 0;
    let mut i: usize = 0;
    while i < bytes.len() {
        let b = bytes[i];
        n = n + more(b);
        i = i + 1;
    }
    n
}

// Whether there is a quote, where b is a byte more.
fn found_with(b: u8, found: bool) -> bool
    ensures { result ≡ pick (eqb b quote) true found }
{
    if b == QUOTE {
        return true;
    }
    found
}

// Whether a text has a quote and so gets longer. This is compiled to far less than a count, and most texts have none.
fn has_quote(bytes: &[u8]) -> bool
    ensures { result ≡ ltb (length bytes.now) (length (doubled bytes.now)) }
{
    let mut found = false;
    let mut i: usize = 0;
    while i < bytes.len() {
        let b = bytes[i];
        found = found_with(b, found);
        i = i + 1;
    }
    found
}

// How many bytes more a text has in a row.
fn quotes(bytes: &[u8]) -> usize
    ensures { (length bytes.now + result ≡ length (doubled bytes.now)) × (result ≤ length bytes.now) }
{
    if has_quote(bytes) {
        return count_quotes(bytes);
    }
    0
}

// A byte of a text, a quote twice: the place behind it.
fn fill_one(b: u8, out: &mut [u8], to: usize) -> usize
    requires { to + length (doubled (b ∷ [])) ≤ length out.old }
    ensures { (out.new ≡ sets out.old to (doubled (b ∷ []))) × (result ≡ to + length (doubled (b ∷ []))) }
{
    let next = to + 1;
    out[to] = b;
    if b == QUOTE {
        out[next] = QUOTE;
        return next + 1;
    }
    next
}

// A text's bytes, each quote twice.
fn fill_doubled(bytes: &[u8], out: &mut [u8], from: usize)
    requires { from + length (doubled bytes.now) ≤ length out.old }
    ensures { out.new ≡ sets out.old from (doubled bytes.now) }
{
    let mut to = from;
    let mut i: usize = 0;
    while i < bytes.len() {
        let next = i + 1;
        let b = bytes[i];
        to = fill_one(b, out, to);
        i = next;
    }
}

// The same with so many quotes: most texts have none and are copied at once.
fn fill_text(extra: usize, bytes: &[u8], out: &mut [u8], from: usize)
    requires extra_len { length bytes.now + extra ≡ length (doubled bytes.now) }
    requires bytes_in_bounds { from + length (doubled bytes.now) ≤ length out.old }
    ensures { out.new ≡ sets out.old from (doubled bytes.now) }
{
    if extra == 0 {
        output::put_bytes(bytes, out, from);
        return;
    }
    fill_doubled(bytes, out, from);
}

// A text, or a char's bytes.
pub fn put_text(bytes: &[u8], out: &mut [u8], used: usize) -> usize
    ensures { Lays (quoted (doubled bytes.now)) used out.old result out.new }
{
    let extra = quotes(bytes);
    let n = bytes.len() + extra;
    let inside = output::add(used, n);
    let end = output::add(inside, 2);
    if out.len() < end {
        return end;
    }
    out[used] = QUOTE;
    fill_text(extra, bytes, out, used + 1);
    out[end - 1] = QUOTE;
    end
}

pub fn put_char(c: u64, out: &mut [u8], used: usize) -> usize
    requires { is_char c ≡ true }
    ensures { Lays (quoted (doubled (char_bytes c))) used out.old result out.new }
{
    let form = utf8::char_bytes(c);
    let bytes = form.bytes;
    let len = form.len;
    put_text(&bytes[..len], out, used)
}

// ---- bytes

// Each byte as two digits.
fn fill_hexes(bytes: &[u8], out: &mut [u8], from: usize)
    requires { from + length (hexes bytes.now) ≤ length out.old }
    ensures { out.new ≡ sets out.old from (hexes bytes.now) }
{
    let mut to = from;
    let mut i: usize = 0;
    while i < bytes.len() {
        let b = bytes[i];
        let two = readable::hex(b);
        out[to] = two[0];
        out[to + 1] = two[1];
        to = to + 2;
        i = i + 1;
    }
}

pub fn put_hex(bytes: &[u8], out: &mut [u8], used: usize) -> usize
    ensures { Lays (quoted (hexes bytes.now)) used out.old result out.new }
{
    let n = 2 * bytes.len();
    let inside = output::add(used, n);
    let end = output::add(inside, 2);
    if out.len() < end {
        return end;
    }
    out[used] = QUOTE;
    fill_hexes(bytes, out, used + 1);
    out[end - 1] = QUOTE;
    end
}

// The content of a CSV row's text or bytes behind its count, as a message has it: laid behind the first `used` bytes of a lent output
// where there is room, and counted in any case.
#![tactic(auto)]

ghost use Rattle.std.specs.Prelude.{◌≡◌, ◌+◌, ◌≤◌, length};
ghost use Rattle.std.proofs.lemmas.List.Edits.{sets};
ghost use Rattle.wire.specs.Writing.{with_count};
ghost use Rattle.put_number.specs.Lays.{Lays};
ghost use Rattle.put_content.specs.Undone.{Steps, undoubled, number_of, unhexed, IsHex, AreHex};

const QUOTE: u8 = b'"';

// ---- texts

// How many bytes of a row a byte of a text is: a quote is two.
fn step(b: u8) -> usize
    ensures { Steps b result }
{
    if b == QUOTE {
        return 2;
    }
    1
}

// A text's bytes, of two quotes one.
fn fill_text(bytes: &[u8], out: &mut [u8], from: usize)
    requires { from + length (undoubled bytes.now) ≤ length out.old }
    ensures { out.new ≡ sets out.old from (undoubled bytes.now) }
{
    let mut to = from;
    let mut i: usize = 0;
    while i < bytes.len() {
        let b = bytes[i];
        let next = i + step(b);
        out[to] = b;
        to = to + 1;
        i = next;
    }
}

// A text of so many bytes: where these are all, no quote was doubled, and they are copied at once.
pub fn put_text(bytes: &[u8], len: usize, out: &mut [u8], used: usize) -> usize
    requires { len ≡ length (undoubled bytes.now) }
    ensures { Lays (with_count (undoubled bytes.now)) used out.old result out.new }
{
    if bytes.len() == len {
        return output::put_counted(bytes, out, used);
    }
    let next = output::put_varint(len as u64, out, used);
    let end = output::add(next, len);
    if out.len() < end {
        return end;
    }
    fill_text(bytes, out, next);
    end
}

// ---- bytes

// A digit's number.
fn number(b: u8) -> u8
    requires { IsHex b }
    ensures { (result ≡ number_of b) × (result ≤ 15) }
{
    if b < 97 {
        return b - 48;
    }
    b - 87
}

// Each byte of two digits.
fn fill_bytes(bytes: &[u8], out: &mut [u8], from: usize)
    requires bytes_in_bounds { from + length (unhexed bytes.now) ≤ length out.old }
    requires are_hex { AreHex bytes.now }
    ensures { out.new ≡ sets out.old from (unhexed bytes.now) }
{
    let n = bytes.len();
    let mut to = from;
    let mut i: usize = 0;
    while i + 1 < n {
        let high = number(bytes[i]);
        let low = number(bytes[i + 1]);
        out[to] = 16 * high + low;
        to = to + 1;
        i = i + 2;
    }
}

// So many bytes.
pub fn put_bytes(bytes: &[u8], len: usize, out: &mut [u8], used: usize) -> usize
    requires len_value { len ≡ length (unhexed bytes.now) }
    requires are_hex { AreHex bytes.now }
    ensures { Lays (with_count (unhexed bytes.now)) used out.old result out.new }
{
    let next = output::put_varint(len as u64, out, used);
    let end = output::add(next, len);
    if out.len() < end {
        return end;
    }
    fill_bytes(bytes, out, next);
    end
}

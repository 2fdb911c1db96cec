// A number of a CSV row, laid behind the first `used` bytes of a lent output where it has room there, and counted in any case. Its one
// spelling stands in desk's specs/Csv.antt.
#![tactic(auto)]

ghost use Rattle.std.specs.Prelude.{◌≡◌, ◌+◌, ◌≤◌, length};
ghost use Rattle.std.proofs.lemmas.List.Edits.{sets};
ghost use Rattle.desk.specs.Csv.{decimal, spelled_word};
ghost use Rattle.put_number.specs.Lays.{Lays};

const LARGEST: u64 = 0xffff_ffff_ffff_ffff;

// How many decimal digits a number has.
fn digits(x: u64) -> usize
    ensures { result ≡ length (decimal x) }
{
    let mut n: usize = 1;
    let mut rest = x;
    while 10000 <= rest {
        rest = rest / 10000;
        n = n + 4;
    }
    if rest < 10 {
        return n;
    }
    if rest < 100 {
        return n + 1;
    }
    if rest < 1000 {
        return n + 2;
    }
    n + 3
}

// A number's decimal digits in front of a place, two at a time from the last to the first.
fn fill_decimal(x: u64, out: &mut [u8], from: usize, end: usize)
    requires { (from + length (decimal x) ≡ end) × (end ≤ length out.old) }
    ensures { out.new ≡ sets out.old from (decimal x) }
{
    let mut at = end;
    let mut rest = x;
    while 100 <= rest {
        let two = rest % 100;
        rest = rest / 100;
        out[at - 1] = (48 + two % 10) as u8;
        out[at - 2] = (48 + two / 10) as u8;
        at = at - 2;
    }
    if rest < 10 {
        out[at - 1] = (48 + rest) as u8;
        return;
    }
    out[at - 1] = (48 + rest % 10) as u8;
    out[at - 2] = (48 + rest / 10) as u8;
}

// A number in decimal without leading zeros.
fn put_decimal(x: u64, out: &mut [u8], used: usize) -> usize
    ensures { Lays (decimal x) used out.old result out.new }
{
    let n = digits(x);
    let end = output::add(used, n);
    if out.len() < end {
        return end;
    }
    fill_decimal(x, out, used, end);
    end
}

// A word's number, which is below zero where the word is larger than the largest number.
pub fn put_word(above: u64, a: u64, out: &mut [u8], used: usize) -> usize
    ensures { Lays (spelled_word above a) used out.old result out.new }
{
    if a <= above {
        return put_decimal(a, out, used);
    }
    let size = LARGEST - a + 1;
    let next = output::put_byte(b'-', out, used);
    put_decimal(size, out, next)
}

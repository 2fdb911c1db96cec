// Eight bytes as one number, so that they are tested in a step.
#![tactic(auto)]

ghost use Rattle.std.specs.Prelude.{◌≡◌, ◌+◌, ◌≤◌, length, take, drop};
ghost use Rattle.wire.specs.Numbers.{little};

// The number in four bytes, the first of them lowest. The compiler makes one load of it, and of two such numbers too.
pub fn four(s: &[u8], at: usize) -> u64
    requires { at + 4 ≤ length s.now }
    ensures { result ≡ little (take 4 (drop at s.now)) }
{
    let a = s[at] as u64;
    let b = s[at + 1] as u64;
    let c = s[at + 2] as u64;
    let d = s[at + 3] as u64;
    a + 256 * (b + 256 * (c + 256 * d))
}

// The number in eight bytes.
pub fn number(s: &[u8], at: usize) -> u64
    requires { at + 8 ≤ length s.now }
    ensures { result ≡ little (take 8 (drop at s.now)) }
{
    let low = four(s, at);
    let high = four(s, at + 4);
    low + 4294967296 * high
}

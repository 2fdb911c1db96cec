// Bits in bytes that a caller lends: all cleared, one marked, one asked for.
#![tactic(auto)]

ghost use Rattle.std.specs.Prelude.{◌≡◌, ◌/◌, ◌<◌, length, replicate};
ghost use Rattle.bits.specs.Marks.{marked, marking};

pub fn clear(area: &mut [u8])
    ensures { area.new ≡ replicate (length area.old) 0 }
{
    area.fill(0);
}

// Whether a bit is set. Beyond the area none is.
pub fn is_marked(area: &[u8], place: usize) -> bool
    ensures { result ≡ marked area.now place }
{
    let byte = area.get(place / 8).copied().unwrap_or(0);
    let bit = (place % 8) as u8;
    (byte >> bit) % 2 == 1
}

pub fn mark(area: &mut [u8], place: usize)
    requires { place / 8 < length area.old }
    ensures { area.new ≡ marking area.old place }
{
    let bit = (place % 8) as u8;
    let at = place / 8;
    let v = area[at];
    if (v >> bit) % 2 == 0 {
        area[at] = v + (1 << bit);
    }
}

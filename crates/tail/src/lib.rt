// The bytes of a lent slice from a place on, or nothing where the place is beyond its end.
#![tactic(auto)]

ghost use Rattle.std.specs.Prelude.{◌≡◌, drop};

pub fn from(bytes: &[u8], place: usize) -> &[u8]
    ensures { result.now ≡ drop place bytes.now }
{
    &bytes[place.min(bytes.len())..]
}

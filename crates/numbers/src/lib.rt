#![tactic(auto)]

// The 16-bit little-endian numbers of lent bytes. Every read is total: where there is no number it is read as 0.
ghost use Rattle.std.specs.Prelude.{◌≡◌, ◌+◌, ◌*◌, ◌<◌, length, get_or, pos, ◌+ℤ◌};
ghost use Rattle.rules.specs.Numbers.{numbers_of, signed_of};

// How many whole numbers there are.
pub fn count(s: &[u8]) -> usize
    ensures { result ≡ length (numbers_of s.now) }
{
    s.len() / 2
}

// The number at the place `i`, counted from 0.
pub fn number(s: &[u8], i: usize) -> u16
    ensures { result ≡ get_or (numbers_of s.now) i 0 }
{
    if i < s.len() / 2 {
        return u16::from_le_bytes([s[2 * i], s[2 * i + 1]]);
    }
    0
}

// The reading at the place `i`, in two's complement, plus 32,768: so it is 0 to 65,535.
#[tactic(auto, using(crate::proofs::Readings::raised))]
pub fn raised_reading(s: &[u8], i: usize) -> u16
    ensures { pos result ≡ signed_of (get_or (numbers_of s.now) i 0) +ℤ pos 32768 }
{
    let v = number(s, i);
    if v < 32768 {
        return v + 32768;
    }
    v - 32768
}

// Sets of the 24 registers, as bits of a word.
// Kept: a plain word, whose `|` and `&` are what `bits_of` says of union and intersection.
ghost use Rattle.std.specs.Prelude.{◌≡◌, [], ◌∷◌, ◌^◌, ◌<◌, ◌≤◌};
ghost use Rattle.machine.specs.Uses.{general, floats};
ghost use Rattle.unset.specs.Bits.{bits_of};

use hexfloat::Width;

// Register k alone.
fn single(k: u32) -> u32
    requires { k < 24 }
    ensures { result ≡ 2 ^ k }
{
    1 << k
}

// General register r of set s alone.
// Kept: a `requires`, here and in uses.rt. A type for r or s would be taken apart at once, to shift by it.
pub fn general_bit(s: u32, r: u16) -> u32
    requires { (s ≤ 1) × (r ≤ 7) }
    ensures { result ≡ bits_of (general s r ∷ []) }
{
    single(8 + s * 8 + r as u32)
}

// Float register r, or both members of pair r.
pub fn float_bits(width: Width, r: u16) -> u32
    requires { r ≤ 7 }
    ensures { result ≡ bits_of (floats width r) }
{
    match width {
        Width::Short => single(r as u32),
        Width::Long => single(r as u32) | single((r as u32 + 1) % 8),
    }
}

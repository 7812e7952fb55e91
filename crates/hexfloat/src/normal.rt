// Normalisation (8.3).
ghost use Rattle.std.specs.Prelude.{◌≡◌};
ghost use Rattle.hexfloat.specs.Operand.{Operand, normalised};

use crate::word::Parts;

// A normalised fraction, and its characteristic plus 14.
#[derive(Clone, Copy)]
pub struct Normal {
    pub place: u32,
    pub fraction: u64,
}

// The leading zero digits of a fraction of d digits are the leading zero bits over four, less the
// 16 - d digits that a u64 has above it.
pub fn normalise(d: u32, p: Parts) -> Normal
    requires { Operand d p }
    ensures { result ≡ normalised d p }
{
    let f = p.fraction;
    let shift = f.leading_zeros() / 4 - (16 - d);
    Normal {
        place: p.characteristic + 14 - shift,
        fraction: f << (4 * shift),
    }
}

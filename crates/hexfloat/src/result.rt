// Results of arithmetic and their limits (8.8).
ghost use Rattle.std.specs.Prelude.{◌≡◌, ℕ, ◌+◌, ◌<◌, ◌≤◌, ◌^◌};
ghost use Rattle.hexfloat.specs.Answer.{mapped};
ghost use Rattle.hexfloat.specs.Normal.{digits};
ghost use Rattle.hexfloat.specs.Operand.{IsPlaced, first_digits};
ghost use Rattle.hexfloat.specs.Result.{says_result, result_of};
ghost use Rattle.hexfloat.specs.Word.{digits_of, words_of};

use crate::word::{Parts, Width, Words};

// Why there is no result.
#[derive(Clone, Copy, PartialEq, Eq)]
pub enum Fault {
    ZeroDivisor,
    Overflow,
    Underflow,
}

// Kept: width and mask apart, here and in what calls this; a struct of the order's width and the seat's mask would
// be made for each call and taken apart in it.
//
// The result of any ratio that has this fraction and the characteristic up - down, a difference of
// two places so that it can be below 0.
pub fn limited(
    width: Width,
    mask: bool,
    sign: u32,
    up: u32,
    down: u32,
    fraction: u64,
) -> Result<Words, Fault>
    requires sign_bound { sign ≤ 1 }
    requires fraction_bound { fraction < 16 ^ digits_of width }
    ensures { (a b : ℕ) → 0 < b → IsPlaced (digits_of width) a b up down fraction → says_result result ≡ mapped (words_of width) (result_of (digits_of width) mask sign a b) }
{
    if up < down {
        return if mask {
            Err(Fault::Underflow)
        } else {
            Ok(Words { high: 0, low: 0 })
        };
    }
    let characteristic = up - down;
    if 127 < characteristic {
        return Err(Fault::Overflow);
    }
    let p = Parts {
        sign,
        characteristic,
        fraction,
    };
    Ok(p.words(width))
}

// The same of a ratio whose first digits are those of m, at most 16 of them, the last one at the
// place up: m is moved left by its leading zero digits, and cut.
pub fn normalised_result(
    width: Width,
    mask: bool,
    sign: u32,
    up: u32,
    down: u32,
    m: u64,
) -> Result<Words, Fault>
    requires sign_bound { sign ≤ 1 }
    requires m_nonzero { 0 < m }
    requires up_bound { up < 2 ^ 16 }
    ensures { (a b : ℕ) → 0 < b → IsPlaced (digits_of width) a b (up + digits m) down (first_digits (digits_of width) m) → says_result result ≡ mapped (words_of width) (result_of (digits_of width) mask sign a b) }
{
    let d = width.digits();
    let zeros = m.leading_zeros() / 4;
    let fraction = (m << (4 * zeros)) >> (4 * (16 - d));
    limited(width, mask, sign, up + 16 - zeros, down, fraction)
}

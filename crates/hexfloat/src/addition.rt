// Sums and differences (8.9, 8.10, 8.26, 8.27).
//
// Both fractions get a guard digit, and the one of the smaller characteristic is moved right. Their
// signed sum, with its carry, fits a u64; its leading zero digits give the normalised fraction,
// which is then cut.
ghost use Rattle.std.specs.Prelude.{◌≡◌, ◌<◌, ◌≤◌, ◌^◌};
ghost use Rattle.hexfloat.specs.Add.{addend_of, input, result_of_sum, sum, summed_words};
ghost use Rattle.hexfloat.specs.Answer.{mapped};
ghost use Rattle.hexfloat.specs.Operand.{Operands};
ghost use Rattle.hexfloat.specs.Result.{says_result};
ghost use Rattle.hexfloat.specs.Word.{digits_of, words_of, inverted};

use crate::result::Fault;
use crate::signed::Signed;
use crate::word::{Parts, Width, Words};

const GUARD_DIGITS: u32 = 1;

// Whether the second operand is added or subtracted.
#[derive(Clone, Copy)]
pub enum Sense {
    Plus,
    Minus,
}

pub fn sum(sense: Sense, width: Width, mask: bool, a: Words, b: Words) -> Result<Words, Fault>
    ensures { says_result result ≡ summed_words sense width mask a b }
{
    let x = a.parts(width);
    let y = b.parts(width);
    add_parts(width, mask, x, addend(sense, y))
}

// The second operand, with its sign inverted for a subtraction.
#[tactic(auto, unfolding(crate::specs::Add::addend_of))]
fn addend(sense: Sense, p: Parts) -> Parts
    ensures { result ≡ addend_of sense p }
{
    match sense {
        Sense::Plus => p,
        Sense::Minus => invert(p),
    }
}

fn invert(p: Parts) -> Parts
    ensures { result ≡ inverted p }
{
    Parts {
        sign: (p.sign == 0) as u32,
        ..p
    }
}

fn add_parts(width: Width, mask: bool, a: Parts, b: Parts) -> Result<Words, Fault>
    requires { Operands (digits_of width) a b }
    ensures { says_result result ≡ mapped (words_of width) (sum (digits_of width) mask a b) }
{
    let x = as_input(a);
    let y = as_input(b);
    let p = crate::alignment::prealign(GUARD_DIGITS, x, y);
    let s = crate::signed::signed_sum(x.sign, p.first, y.sign, p.second);
    normalise_sum(width, mask, p.characteristic, s)
}

// A zero fraction counts as true zero.
#[tactic(auto, unfolding(crate::specs::Add::input))]
fn as_input(p: Parts) -> Parts
    ensures { result ≡ input p }
{
    if p.fraction == 0 {
        return Parts {
            sign: 0,
            characteristic: 0,
            fraction: 0,
        };
    }
    p
}

// An intermediate sum at the characteristic c, with at most one digit of carry.
fn normalise_sum(width: Width, mask: bool, c: u32, s: Signed) -> Result<Words, Fault>
    requires { (c ≤ 127) × (s.sign ≤ 1) × (s.magnitude < 16 ^ 16) }
    ensures { says_result result ≡ mapped (words_of width) (result_of_sum (digits_of width) mask c s) }
{
    let sign = s.sign;
    let m = s.magnitude;
    if m == 0 {
        return Ok(Words { high: 0, low: 0 });
    }
    let d = width.digits();
    crate::result::normalised_result(width, mask, sign, c, d + GUARD_DIGITS, m)
}

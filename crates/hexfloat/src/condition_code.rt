// Condition codes of operands and results, and the complement (8.7, 8.17 to 8.19, 4.14).
ghost use Rattle.std.specs.Prelude.{◌≡◌};
ghost use Rattle.hexfloat.specs.Condition.{condition_by, condition_of, operand_condition, signed_condition, general_condition, complement};

use crate::word::{Parts, Width, Words};

// Kept: condition codes as numbers (`condition_by`), here and in what calls this, as the manual and the status have them.
#[tactic(auto, unfolding(crate::specs::Condition::operand_condition))]
pub fn condition(width: Width, a: Words) -> u8
    ensures { result ≡ operand_condition width a }
{
    condition_of(a.parts(width))
}

pub fn condition_of(p: Parts) -> u8
    ensures { result ≡ condition_of p }
{
    condition_by(p.fraction == 0, p.sign == 0)
}

#[tactic(auto, unfolding(crate::specs::Condition::general_condition))]
pub fn general_condition(w: u32) -> u8
    ensures { result ≡ general_condition w }
{
    signed_condition(0x8000_0000, w)
}

pub fn signed_condition(half: u32, n: u32) -> u8
    ensures { result ≡ signed_condition half n }
{
    condition_by(n == 0, n < half)
}

#[tactic(auto, unfolding(crate::specs::Condition::condition_by))]
pub fn condition_by(equal: bool, above: bool) -> u8
    ensures { result ≡ condition_by equal above }
{
    if equal {
        return 0;
    }
    if above { 1 } else { 3 }
}

#[tactic(auto, unfolding(crate::specs::Condition::complement))]
pub fn complement(w: u32) -> u32
    ensures { result ≡ complement w }
{
    if w % 0x100_0000 == 0 {
        return 0;
    }
    if w < 0x8000_0000 {
        w + 0x8000_0000
    } else {
        w - 0x8000_0000
    }
}

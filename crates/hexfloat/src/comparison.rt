// Compares (8.11, 8.12): short operands by exact value, long ones by their aligned fractions.
ghost use Rattle.std.specs.Prelude.{◌≡◌};
ghost use Rattle.hexfloat.specs.Compare.{rank_condition, signed_rank, compared, compared_aligned, compared_words};
ghost use Rattle.hexfloat.specs.Operand.{Alignable, Operand, Operands, magnitude_key};

use crate::word::{Parts, Width, Words};

// With the 14 digits of a long operand these make 64 bits.
const GUARD_DIGITS: u32 = 2;

#[tactic(auto, unfolding(crate::specs::Compare::compared_words))]
pub fn compare(width: Width, a: Words, b: Words) -> u8
    ensures { result ≡ compared_words width a b }
{
    let x = a.parts(width);
    let y = b.parts(width);
    match width {
        Width::Short => compare_exact(6, x, y),
        Width::Long => compare_aligned(x, y),
    }
}

fn compare_exact(d: u32, x: Parts, y: Parts) -> u8
    requires { Operands d x y }
    ensures { result ≡ compared d x y }
{
    rank_signed(x.sign, magnitude_key(d, x), y.sign, magnitude_key(d, y))
}

// Unnormalised operands and zero fractions are aligned as they are.
fn compare_aligned(x: Parts, y: Parts) -> u8
    requires { Alignable 2 x y }
    ensures { result ≡ compared_aligned 2 x y }
{
    let p = crate::alignment::prealign(GUARD_DIGITS, x, y);
    rank_signed(x.sign, p.first, y.sign, p.second)
}

// A magnitude m of sign s against n of sign t.
fn rank_signed(s: u32, m: u64, t: u32, n: u64) -> u8
    ensures { result ≡ signed_rank s m t n }
{
    if s == 0 {
        if t == 0 {
            return rank(m, n);
        }
        return if m == 0 { rank(n, 0) } else { 1 };
    }
    if t == 0 {
        return if m == 0 { rank(0, n) } else { 3 };
    }
    rank(n, m)
}

// Kept: two tests, as an `Ordering` would be told apart again to the codes 0, 1 and 3.
fn rank(x: u64, y: u64) -> u8
    ensures { result ≡ rank_condition x y }
{
    crate::condition_code::condition_by(x == y, y < x)
}

// A number that ranks as the magnitude does: the normalised place above the normalised fraction.
fn magnitude_key(d: u32, p: Parts) -> u64
    requires { Operand d p }
    ensures { result ≡ magnitude_key d p }
{
    if p.fraction == 0 {
        return 0;
    }
    let n = crate::normal::normalise(d, p);
    n.place as u64 * 0x100_0000_0000_0000 + n.fraction
}

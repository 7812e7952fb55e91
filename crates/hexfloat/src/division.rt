// Divides (8.15, 8.16).
//
// Both fractions are normalised, so that the quotient's first digit stands right before or right
// after the point. A short quotient is one division of a u64. A long one is two turns of six or seven
// digits, each one division and at most one correction.
ghost use Rattle.std.specs.Prelude.{◌≡◌, ◌+◌, ◌*◌, ◌/◌, ◌<◌, ◌^◌};
ghost use Rattle.hexfloat.specs.Divide.{quotient_words};
ghost use Rattle.hexfloat.specs.Operand.{Dividends, Turning, Correcting, turn_of, lead_of};
ghost use Rattle.hexfloat.specs.Result.{says_result};

use crate::result::Fault;
use crate::word::{Width, Words};

pub fn divide(width: Width, mask: bool, a: Words, b: Words) -> Result<Words, Fault>
    ensures { says_result result ≡ quotient_words width mask a b }
{
    let x = a.parts(width);
    let y = b.parts(width);
    if y.fraction == 0 {
        return Err(Fault::ZeroDivisor);
    }
    if x.fraction == 0 {
        return Ok(Words { high: 0, low: 0 });
    }
    let d = width.digits();
    // y first: x may just have been written by the order before
    let m = crate::normal::normalise(d, y);
    let n = crate::normal::normalise(d, x);
    let lead = leads(n.fraction, m.fraction);
    let fraction = leading_digits(width, d - lead, n.fraction, m.fraction);
    let sign = (x.sign + y.sign) % 2;
    crate::result::limited(width, mask, sign, n.place + 64 + lead, m.place, fraction)
}

// Of two normalised fractions: 1 where their quotient has a digit before the point, else 0.
fn leads(a: u64, b: u64) -> u32
    ensures { result ≡ lead_of a b }
{
    (b <= a) as u32
}

// a * 16^n / b, cut toward zero.
fn leading_digits(width: Width, n: u32, a: u64, b: u64) -> u64
    requires { Dividends width n a b }
    ensures { result ≡ a * 16 ^ n / b }
{
    match width {
        Width::Short => (a << (4 * n)) / b,
        Width::Long => {
            let t = take_turn(n - 7, a, b);
            let u = take_turn(7, t.rest, b);
            (t.taken << 28) + u.taken
        }
    }
}

// What a turn takes into the quotient, and what it leaves of the dividend.
#[derive(Clone, Copy)]
pub struct Turn {
    pub taken: u64,
    pub rest: u64,
}

// rest * 16^k over b, where that is wider than a u64. The estimate divides by the divisor's leading
// digits plus one; as the divisor is normalised, it is right or one too small.
fn take_turn(k: u32, rest: u64, b: u64) -> Turn
    requires { Turning k rest b }
    ensures { result ≡ turn_of (rest * 16 ^ k) b }
{
    let e = (rest << 8) / ((b >> (4 * (k - 2))) + 1);
    let h = b >> (4 * k);
    let high = rest - e * h;
    let low = b - (h << (4 * k));
    correct(e, (high << (4 * k)) - e * low, b)
}

// q * b + rest over b, where rest is less than two divisors.
fn correct(q: u64, rest: u64, b: u64) -> Turn
    requires { Correcting q rest b }
    ensures { result ≡ turn_of (q * b + rest) b }
{
    if rest < b {
        return Turn { taken: q, rest };
    }
    Turn {
        taken: q + 1,
        rest: rest - b,
    }
}

// Products (8.24, 8.25).
//
// The product of two short fractions, of 12 digits, fits a u64. That of two long ones has 28 digits,
// and no integer is as wide. They are normalised first, so that the product's first digit stands at
// the first or the second place: of the two parts that it is built in, the first one, of 16 digits,
// then has all that a result keeps.
ghost use Rattle.std.specs.Prelude.{◌≡◌, ◌+◌, ◌*◌, ◌<◌, ◌^◌};
ghost use Rattle.hexfloat.specs.Answer.{mapped};
ghost use Rattle.hexfloat.specs.Multiply.{product, product_words};
ghost use Rattle.hexfloat.specs.Operand.{Factors};
ghost use Rattle.hexfloat.specs.Result.{says_result};
ghost use Rattle.hexfloat.specs.Word.{digits_of, words_of};

use crate::result::Fault;
use crate::word::{Parts, Width, Words};

// The characteristic of a product is the sum of its factors' less 64, where the point stands before
// the 12 digits of a short product, or the first 16 of a long one. The places of normalised factors
// stand 14 above their characteristics.
const SHORT_EXCESS: u32 = 64 + 12;

const LONG_EXCESS: u32 = 64 + 16 + 2 * 14;

pub fn multiply(
    operands: Width,
    width: Width,
    mask: bool,
    a: Words,
    b: Words,
) -> Result<Words, Fault>
    ensures { says_result result ≡ product_words operands width mask a b }
{
    let x = a.parts(operands);
    let y = b.parts(operands);
    if x.fraction == 0 {
        return Ok(Words { high: 0, low: 0 });
    }
    if y.fraction == 0 {
        return Ok(Words { high: 0, low: 0 });
    }
    match operands {
        Width::Short => multiply_short(width, mask, x, y),
        Width::Long => multiply_long(width, mask, x, y),
    }
}

fn multiply_short(width: Width, mask: bool, x: Parts, y: Parts) -> Result<Words, Fault>
    requires { Factors 6 x y }
    ensures { says_result result ≡ mapped (words_of width) (product 6 (digits_of width) mask x y) }
{
    let sign = (x.sign + y.sign) % 2;
    let place = x.characteristic + y.characteristic;
    let p = x.fraction * y.fraction;
    crate::result::normalised_result(width, mask, sign, place, SHORT_EXCESS, p)
}

fn multiply_long(width: Width, mask: bool, x: Parts, y: Parts) -> Result<Words, Fault>
    requires { Factors 14 x y }
    ensures { says_result result ≡ mapped (words_of width) (product 14 (digits_of width) mask x y) }
{
    let sign = (x.sign + y.sign) % 2;
    // y first: x may just have been written by the order before
    let m = crate::normal::normalise(14, y);
    let n = crate::normal::normalise(14, x);
    let place = n.place + m.place;
    let p = multiply_fractions(n.fraction, m.fraction);
    crate::result::normalised_result(width, mask, sign, place, LONG_EXCESS, p.high)
}

// A product of two fractions as a whole number, high * 16^12 + low.
#[derive(Clone, Copy)]
pub struct Product {
    pub high: u64,
    pub low: u64,
}

// Each fraction is split after its first eight digits, so that each of the four products fits a u64.
fn multiply_fractions(a: u64, b: u64) -> Product
    requires { (a < 16 ^ 14) × (b < 16 ^ 14) }
    ensures { (result.high * 16 ^ 12 + result.low ≡ a * b) × (result.low < 16 ^ 12) }
{
    let ah = a / 0x100_0000;
    let al = a % 0x100_0000;
    let bh = b / 0x100_0000;
    let bl = b % 0x100_0000;
    let low = al * bl;
    let middle = ah * bl + al * bh + low / 0x100_0000;
    let high = ah * bh + middle / 0x100_0000;
    let rest = middle % 0x100_0000 * 0x100_0000 + low % 0x100_0000;
    Product { high, low: rest }
}

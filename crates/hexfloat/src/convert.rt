// Conversions between floating and fixed point (8.13, 8.14).
ghost use Rattle.std.specs.Prelude.{◌≡◌, ◌≤◌, ◌^◌};
ghost use Rattle.hexfloat.specs.Operand.{Operand};
ghost use Rattle.hexfloat.specs.Convert.{says_fixed, to_fixed, to_float, float_parts, fixed_magnitude, signed_word, word_magnitude};

use crate::word::{Coded, Parts};

// CVFX; none where the value is out of the range of a word, which is convert overflow.
pub fn to_fixed(w: u32) -> Option<Coded>
    ensures { says_fixed result ≡ to_fixed w }
{
    let p = Parts::short(w);
    if p.fraction == 0 {
        return Some(Coded {
            word: 0,
            condition: 0,
        });
    }
    if 73 < p.characteristic {
        return None;
    }
    let m = integer(p);
    if 0x8000_0000 + p.sign as u64 <= m {
        return None;
    }
    let word = signed_word(p.sign, m);
    Some(Coded {
        word,
        condition: crate::condition_code::signed_condition(0x8000, word / 0x1_0000),
    })
}

// The magnitude times 65,536, cut toward zero: the fraction moved by its digits' distance from 66.
fn integer(p: Parts) -> u64
    requires operand { Operand 6 p }
    requires characteristic_bound { p.characteristic ≤ 73 }
    ensures { result ≡ fixed_magnitude p }
{
    let c = p.characteristic;
    let f = p.fraction;
    if 66 <= c {
        return f << (4 * (c - 66));
    }
    if 60 < c { f >> (4 * (66 - c)) } else { 0 }
}

// The two's complement word of a sign and a magnitude.
fn signed_word(sign: u32, m: u64) -> u32
    requires { m ≤ 2 ^ 31 }
    ensures { result ≡ signed_word sign m }
{
    let word = m as u32;
    if sign == 0 { word } else { word.wrapping_neg() }
}

// CVFL.
pub fn to_float(w: u32) -> Coded
    ensures { result ≡ to_float w }
{
    let p = float_parts(w);
    Coded {
        word: p.short_word(),
        condition: crate::condition_code::condition_of(p),
    }
}

fn float_parts(w: u32) -> Parts
    ensures { result ≡ float_parts w }
{
    let m = magnitude(w);
    if m == 0 {
        return Parts {
            sign: 0,
            characteristic: 0,
            fraction: 0,
        };
    }
    let shift = m.leading_zeros() / 4;
    Parts {
        sign: w / 0x8000_0000,
        characteristic: 68 - shift,
        fraction: (m << (4 * shift)) as u64 / 256,
    }
}

fn magnitude(w: u32) -> u32
    ensures { result ≡ word_magnitude w }
{
    if w < 0x8000_0000 { w } else { w.wrapping_neg() }
}

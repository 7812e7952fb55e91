// Values of deck text: each is a number, or none where it is malformed.
ghost use Rattle.std.specs.Prelude.{◌≡◌, ◌≤◌, ◌<◌, length};
ghost use Rattle.decktext.specs.Value.{says_value, decimal_of, protect_of, word_of};
ghost use Rattle.decktext.specs.Walk.{number_in};

use crate::digit::digit;
use crate::tables::Tables;

// No leading zero and at most 65,535, so at most five digits.
// One digit is a number, 0 too: no branch on it, which the processor would often guess wrongly.
#[tactic(auto, using(crate::proofs::Decimals::decimal_cases))]
pub fn decimal(v: &[u8], tables: &Tables) -> Option<u16>
    ensures { says_value result ≡ decimal_of v.now }
{
    if v.is_empty() {
        return None;
    }
    if 5 < v.len() {
        return None;
    }
    if v.len() == 1 {
        return number(v, 10, tables);
    }
    if digit(v[0], tables) == 0 {
        return None;
    }
    number(v, 10, tables)
}

// One digit, 0 or 1.
pub fn protect(v: &[u8], tables: &Tables) -> Option<u16>
    ensures { says_value result ≡ protect_of v.now }
{
    if v.len() != 1 {
        return None;
    }
    number(v, 2, tables)
}

// Four digits.
pub fn word(v: &[u8], tables: &Tables) -> Option<u16>
    ensures { says_value result ≡ word_of v.now }
{
    if v.len() != 4 {
        return None;
    }
    number(v, 16, tables)
}

// The number of some digits in a base.
fn number(v: &[u8], base: u32, tables: &Tables) -> Option<u16>
    requires { (length v.now ≤ 5) × (0 < base) × (base ≤ 16) }
    ensures { says_value result ≡ number_in base v.now }
{
    let mut n: u32 = 0;
    for b in v {
        let d = digit(*b, tables) as u32;
        if base <= d {
            return None;
        }
        n = n * base + d;
    }
    u16::try_from(n).ok()
}

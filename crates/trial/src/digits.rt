// Numbers in digits.
ghost use Rattle.std.specs.Prelude.{◌≡◌};
ghost use Rattle.trial.specs.Number.{digit_of, number_of, numbers_of};

use crate::case::Ended;

/// The value of a digit 0-9 A-F that the base has.
// Kept: `char::to_digit` takes a-f too, which are no digits here.
pub fn digit(base: u32, byte: u8) -> Option<u32>
    ensures { result ≡ digit_of base byte }
{
    let value = match byte {
        b'0'..=b'9' => byte - b'0',
        b'A'..=b'F' => byte - b'A' + 10,
        _ => return None,
    };
    Some(u32::from(value)).filter(|value| *value < base)
}

/// The number that has these digits, cut to 32 bits.
pub fn number(base: u32, digits: &[u8]) -> Result<u32, Ended>
    ensures { result ≡ number_of base digits.now }
{
    let mut n = 0u32;
    for byte in digits {
        let Some(value) = digit(base, *byte) else {
            return Err(Ended::Malformed);
        };
        n = n.wrapping_mul(base).wrapping_add(value);
    }
    Ok(n)
}

/// The numbers of so many digits each that a text begins with, one byte between two.
pub fn numbers<const N: usize>(
    base: u32,
    text: &[u8],
    widths: [usize; N],
) -> Result<[u32; N], Ended>
    ensures { result ≡ numbers_of base text.now widths.entry }
{
    let mut values = [0; N];
    let mut rest = text;
    for (i, width) in widths.iter().enumerate() {
        let Some((digits, after)) = rest.split_at_checked(*width) else {
            return Err(Ended::Malformed);
        };
        values[i] = number(base, digits)?;
        rest = &after[after.len().min(1)..];
    }
    Ok(values)
}

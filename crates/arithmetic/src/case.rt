// A case: `op mask a b` in 38 bytes, with a and b of 16 digits 0-9 A-F and a line feed at the end.
use hexfloat::{Sense, Width, Words};
use trial::Ended;

/// An order by its letter: the wide ones are mostly capitals.
#[derive(Clone, Copy)]
pub enum Op {
    Divide(Width),
    Compare(Width),
    Sum(Sense, Width),
    /// The width of the operands, and of the product.
    Multiply(Width, Width),
    ToFixed,
    ToFloat,
}

impl TryFrom<u8> for Op {
    type Error = Ended;

    fn try_from(letter: u8) -> Result<Op, Ended> {
        Ok(match letter {
            b'd' => Op::Divide(Width::Short),
            b'D' => Op::Divide(Width::Long),
            b'c' => Op::Compare(Width::Short),
            b'C' => Op::Compare(Width::Long),
            b'a' => Op::Sum(Sense::Plus, Width::Short),
            b'A' => Op::Sum(Sense::Plus, Width::Long),
            b's' => Op::Sum(Sense::Minus, Width::Short),
            b'S' => Op::Sum(Sense::Minus, Width::Long),
            b'm' => Op::Multiply(Width::Short, Width::Long),
            b'n' => Op::Multiply(Width::Short, Width::Short),
            b'M' => Op::Multiply(Width::Long, Width::Long),
            b'x' => Op::ToFixed,
            b'f' => Op::ToFloat,
            _ => return Err(Ended::Malformed),
        })
    }
}

#[derive(Clone, Copy)]
pub struct Case {
    pub op: Op,
    pub mask: bool,
    pub a: Words,
    pub b: Words,
}

fn mask_of(digit: u8) -> Result<bool, Ended> {
    match digit {
        b'0' => Ok(false),
        b'1' => Ok(true),
        _ => Err(Ended::Malformed),
    }
}

fn words_of(digits: &[u8]) -> Result<Words, Ended> {
    let (high, low) = digits.split_at_checked(8).ok_or(Ended::Malformed)?;
    Ok(Words {
        high: trial::number(16, high)?,
        low: trial::number(16, low)?,
    })
}

pub fn parse(line: &[u8; 38]) -> Result<Case, Ended> {
    if [line[1], line[3], line[20]] != [b' '; 3] {
        return Err(Ended::Malformed);
    }
    Ok(Case {
        op: Op::try_from(line[0])?,
        mask: mask_of(line[2])?,
        a: words_of(&line[4..20])?,
        b: words_of(&line[21..37])?,
    })
}

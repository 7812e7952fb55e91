// What an order gives: the words of its result and the condition code, or its stop.
use crate::case::{Case, Op};
use hexfloat::{Coded, Fault, Words};
use machine::Stop;

#[derive(Clone, Copy)]
pub struct Given {
    pub words: Words,
    // none where the order sets none
    pub condition: Option<u8>,
}

impl From<Words> for Given {
    fn from(words: Words) -> Given {
        Given {
            words,
            condition: None,
        }
    }
}

impl From<Coded> for Given {
    fn from(coded: Coded) -> Given {
        Given {
            words: Words {
                high: coded.word,
                low: 0,
            },
            condition: Some(coded.condition),
        }
    }
}

pub fn run(c: Case) -> Result<Given, Stop> {
    let Case { op, mask, a, b } = c;
    match op {
        Op::Divide(width) => Ok(hexfloat::divide(width, mask, a, b)?.into()),
        Op::Compare(width) => Ok(Given {
            words: Words { high: 0, low: 0 },
            condition: Some(hexfloat::compare(width, a, b)),
        }),
        Op::Sum(sense, width) => {
            let words = hexfloat::sum(sense, width, mask, a, b)?;
            Ok(Given {
                words,
                condition: Some(hexfloat::condition(width, words)),
            })
        }
        Op::Multiply(operands, width) => {
            Ok(hexfloat::multiply(operands, width, mask, a, b)?.into())
        }
        Op::ToFixed => {
            let coded = hexfloat::to_fixed(a.high).ok_or(Stop::ConvertOverflow)?;
            Ok(coded.into())
        }
        Op::ToFloat => Ok(hexfloat::to_float(a.high).into()),
    }
}

const DIGITS: [u8; 16] = *b"0123456789ABCDEF";

/// An answer as a line: 16 digits, the stop in two digits, the condition code or `-`.
// Kept: the digits by hand. By the formatter a case took 1.3 of the time.
pub fn line_of(answer: Result<Given, Stop>) -> [u8; 22] {
    let mut line = *b"0000000000000000 00 -\n";
    match answer {
        Ok(Given { words, condition }) => {
            let words = u64::from(words.high) << 32 | u64::from(words.low);
            for i in 0..16 {
                line[i] = DIGITS[(words >> (60 - 4 * i) & 15) as usize];
            }
            if let Some(condition) = condition {
                line[20] = DIGITS[(condition & 15) as usize];
            }
        }
        Err(stop) => {
            let number = u8::from(stop);
            line[17] = b'0' + number / 10 % 10;
            line[18] = b'0' + number % 10;
        }
    }
    line
}

// The line of a call: what it answered, and what stands after it.
use crate::calling::Called;
use machine::{Registers, State};
use std::fmt;

/// Words in eight digits, a blank between two.
#[derive(Clone, Copy)]
pub struct Words<'a>(pub &'a [u32]);

impl fmt::Display for Words<'_> {
    fn fmt<W: fmt::Write>(&self, f: &mut fmt::Formatter<W>) -> fmt::Result {
        if let Some((first, rest)) = self.0.split_first() {
            write!(f, "{first:08X}")?;
            for word in rest {
                write!(f, " {word:08X}")?;
            }
        }
        Ok(())
    }
}

/// Numbers in digits 0-9 A-F with nothing between, each in as many as the format asks for: halfwords by `{:04}`, words
/// by `{:08}`.
#[derive(Clone, Copy)]
pub struct Joined<'a, T>(pub &'a [T]);

impl<T: fmt::UpperHex> fmt::Display for Joined<'_, T> {
    fn fmt<W: fmt::Write>(&self, f: &mut fmt::Formatter<W>) -> fmt::Result {
        for number in self.0 {
            fmt::UpperHex::fmt(number, f)?;
        }
        Ok(())
    }
}

// What a seat has: pointer, condition code, mask and selector, then floats and both sets.
#[derive(Clone, Copy)]
struct Seat<'a>(&'a Registers);

impl fmt::Display for Seat<'_> {
    fn fmt<W: fmt::Write>(&self, f: &mut fmt::Formatter<W>) -> fmt::Result {
        let status = self.0.status;
        write!(
            f,
            "{} {} {} {} ",
            status.pointer, status.condition, status.mask, status.selector
        )?;
        write!(f, "{} {}", Words(&self.0.float), Words(&self.0.general))
    }
}

/// The used count and both seats.
#[derive(Clone, Copy)]
pub struct Standing<'a>(pub &'a State);

impl fmt::Display for Standing<'_> {
    fn fmt<W: fmt::Write>(&self, f: &mut fmt::Formatter<W>) -> fmt::Result {
        let state = self.0;
        write!(
            f,
            "{} {} {}",
            state.used,
            Seat(&state.seat0),
            Seat(&state.seat1)
        )
    }
}

// Its steps, its stop, whose step it took back, and the state.
impl fmt::Display for Called {
    fn fmt<W: fmt::Write>(&self, f: &mut fmt::Formatter<W>) -> fmt::Result {
        write!(f, "{} {} ", self.count, u8::from(self.stop))?;
        match self.whose {
            Some(seat) => write!(f, "{seat}")?,
            None => f.write_str("-")?,
        }
        write!(f, " {}", Standing(&self.state))
    }
}

// The shortest stretch that still stops, as C receives it.
ghost use Rattle.std.specs.Prelude.{◌≡◌};
ghost use Rattle.hexfloat.specs.Answer.{stops};
ghost use Rattle.protection.specs.Bits.{bitwise};
ghost use Rattle.machine.specs.Machine.{machine};
ghost use Rattle.stretch.specs.Answer.{says_found};
ghost use Rattle.panel.specs.Stretch.{interval_of, TellsStretch};

use machine::State;
use stretch::{Refusal, Stretch};

// 0 or the number of the refusal; then the first order, the last and the number that it stops by, 0 on a refusal.
#[repr(C)]
#[derive(Clone, Copy)]
pub struct Interval {
    pub number: u32,
    pub first: u32,
    pub last: u32,
    pub stop: u32,
}

fn refused(number: u32) -> Interval
    ensures { result ≡ interval_of (stops number) }
{
    Interval {
        number,
        first: 0,
        last: 0,
        stop: 0,
    }
}

fn limits(found: Result<Stretch, Refusal>) -> Interval
    ensures { result ≡ interval_of (says_found found) }
{
    match found {
        Ok(stretch) => Interval {
            number: 0,
            first: stretch.first as u32,
            last: stretch.last as u32,
            stop: machine::number(stretch.stop) as u32,
        },
        Err(refusal) => refused(u8::from(refusal) as u32),
    }
}

pub fn stretch_by_value(
    s: State,
    seat: u32,
    deck: &[u16],
    memory: &mut [u16],
    protect: &[u8],
    journal: &mut [u32],
) -> Interval
    ensures { TellsStretch deck.now (bitwise protect.now) seat (machine s memory.old journal.old)
        (machine s memory.new journal.new) result }
{
    let answer = stretch::shortest(s, seat, deck, memory, protect, journal);
    limits(answer.found)
}

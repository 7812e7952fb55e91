// A call by its two bytes: the seat's digit, and the kind.
ghost use Rattle.std.specs.Prelude.{◌≡◌};
ghost use Rattle.protection.specs.Bits.{bitwise};
ghost use Rattle.machine.specs.Machine.{machine};
ghost use Rattle.trial.specs.Call.{value_of, forward_called, answered, called};

use crate::digits::digit;
use machine::{State, Stop};

// A digit's value; any other byte stands for the largest number.
fn value_of(byte: u8) -> u32
    ensures { result ≡ value_of byte }
{
    digit(10, byte).unwrap_or(u32::MAX)
}

// What a call of any kind answered.
#[derive(Clone, Copy)]
pub struct Called {
    pub state: State,
    pub count: u32,
    pub stop: Stop,
    pub whose: Option<u32>,
}

// Of a call that took no step back.
fn forward(state: State, count: u32, stop: Stop) -> Called
    ensures { result ≡ forward_called state count stop }
{
    Called {
        state,
        count,
        stop,
        whose: None,
    }
}

// `s` a step of the seat, `b` a back step, a digit a run with that limit, anything else a run with the largest.
// Kept: deck, memory, protect list and journal apart, as in machine's calls, which C makes.
pub fn call(
    seat: u8,
    byte: u8,
    s: State,
    deck: &[u16],
    memory: &mut [u16],
    protect: &[u8],
    journal: &mut [u32],
) -> Called
    ensures { answered result memory.new journal.new
        ≡ called seat byte deck.now (bitwise protect.now) (machine s memory.old journal.old) }
{
    let k = value_of(seat);
    match byte {
        b's' => {
            // Kept: the stop by its number, which `called` counts by; `Stop::Taken` would want a law over all 17 and say no more.
            let r = machine::step(s, k, deck, memory, protect, journal);
            forward(r.state, u32::from(machine::number(r.stop) == 0), r.stop)
        }
        b'b' => {
            let r = machine::back(s, memory, protect, journal);
            Called {
                state: r.state,
                count: 0,
                stop: r.stop,
                whose: r.whose,
            }
        }
        _ => {
            let r = machine::run(s, k, deck, memory, protect, journal, value_of(byte));
            forward(r.state, r.count, r.stop)
        }
    }
}

// A trial: a run from another order, taken back.
ghost use Rattle.std.specs.Prelude.{◌≡◌, ◌≤◌};
ghost use Rattle.protection.specs.Bits.{bitwise};
ghost use Rattle.machine.specs.Machine.{machine};
ghost use Rattle.machine.specs.Stops.{number_of};
ghost use Rattle.stretch.specs.Search.{CameTo, Tried};
ghost use Rattle.stretch.specs.Trial.{pointed};

use crate::restoring::restore;
use machine::{Ran, State};

// The state with a seat's pointer moved.
#[tactic(auto, unfolding(machine::specs::Seats::other_of, crate::specs::Trial::pointed, machine::specs::Seats::registers_of))]
fn pointed(s: State, seat: u32, order: u16) -> State
    ensures { result ≡ pointed seat order s }
{
    let mut next = s;
    if seat == 0 {
        next.seat0.status.pointer = order;
    } else {
        next.seat1.status.pointer = order;
    }
    next
}

// A run that is taken back: what it came to. The state is the caller's own, and memory is restored from the records.
pub fn run_and_return(
    s: State,
    seat: u32,
    deck: &[u16],
    memory: &mut [u16],
    protect: &[u8],
    journal: &mut [u32],
    limit: u32,
) -> Ran
    ensures { CameTo deck.now (bitwise protect.now) seat limit (machine s memory.old journal.old)
        (machine s memory.new journal.new) result.state result.count (number_of result.stop) }
{
    let ran = machine::run(s, seat, deck, memory, protect, journal, limit);
    restore(memory, journal, s.used, ran.count);
    ran
}

// Whether the run from order `first` takes every order before `last` and stops there by this number. It is given as many
// steps as there are orders from the one to the other, so that a trial costs its own steps, and is taken back.
pub fn stops_alike(
    s: State,
    seat: u32,
    first: u16,
    last: u16,
    number: u8,
    deck: &[u16],
    memory: &mut [u16],
    protect: &[u8],
    journal: &mut [u32],
) -> bool
    requires { first ≤ last }
    ensures { Tried deck.now (bitwise protect.now) seat (machine s memory.old journal.old)
        (machine s memory.new journal.new) last number first result }
{
    let before = (last - first) as u32;
    let start = pointed(s, seat, first);
    let ran = run_and_return(start, seat, deck, memory, protect, journal, before + 1);
    let stop = ran.stop;
    if ran.count != before {
        return false;
    }
    machine::number(stop) == number
}

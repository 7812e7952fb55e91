// One step.
ghost use Rattle.std.specs.Prelude.{◌≡◌};
ghost use Rattle.protection.specs.Bits.{bitwise};
ghost use Rattle.machine.specs.Stops.{number_of};
ghost use Rattle.machine.specs.Machine.{machine};
ghost use Rattle.machine.specs.Seats.{seated, Beside};
ghost use Rattle.machine.specs.Step.{single, stepped};

use crate::advance::advance;
use crate::state::{Registers, State, Status, other_of, registers_of, seat_down};
use crate::stop::Stop;

// What a step leaves of its seat, the used count, and how it ended.
// Kept: a struct for each call, here and in running.rt and undoing.rt, as each hands back other things by value.
#[derive(Clone, Copy)]
pub struct SeatStepped {
    pub registers: Registers,
    pub used: u32,
    pub stop: Stop,
}

// One order of a seat, or the stop that the table gives: at most one step. Of the other seat it is given the
// status, which check 3 looks at, and no more, so that its registers need not be copied.
pub fn step_seat(
    own: Registers,
    other: Status,
    seat: u32,
    used: u32,
    deck: &[u16],
    memory: &mut [u16],
    protect: &[u8],
    journal: &mut [u32],
) -> SeatStepped
    ensures { Beside other (λ o. single (machine (seated seat result.registers o result.used) memory.new journal.new) (number_of result.stop)
        ≡ stepped deck.now (bitwise protect.now) seat (machine (seated seat own o used) memory.old journal.old)) }
{
    let start = own.status;
    let mut float = own.float;
    let mut general = own.general;
    let r = advance(
        seat,
        &mut float,
        &mut general,
        start.condition,
        start.mask,
        start.pointer,
        start.selector,
        other,
        used,
        deck,
        memory,
        protect,
        journal,
        1,
    );
    let status = r.status();
    let registers = Registers {
        float,
        general,
        status,
    };
    let used = r.used;
    let stop = r.stop;
    SeatStepped {
        registers,
        used,
        stop,
    }
}

#[derive(Clone, Copy)]
pub struct Stepped {
    pub state: State,
    pub stop: Stop,
}

// The same of a whole state.
pub fn step(
    s: State,
    seat: u32,
    deck: &[u16],
    memory: &mut [u16],
    protect: &[u8],
    journal: &mut [u32],
) -> Stepped
    ensures { single (machine result.state memory.new journal.new) (number_of result.stop)
        ≡ stepped deck.now (bitwise protect.now) seat (machine s memory.old journal.old) }
{
    let own = registers_of(s, seat);
    let other = other_of(s, seat);
    let beside = other.status;
    let r = step_seat(own, beside, seat, s.used, deck, memory, protect, journal);
    let registers = r.registers;
    let state = seat_down(seat, registers, other, r.used);
    let stop = r.stop;
    Stepped { state, stop }
}

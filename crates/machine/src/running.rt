// Runs.
ghost use Rattle.std.specs.Prelude.{◌≡◌};
ghost use Rattle.protection.specs.Bits.{bitwise};
ghost use Rattle.machine.specs.Stops.{number_of};
ghost use Rattle.machine.specs.Machine.{machine};
ghost use Rattle.machine.specs.Step.{outcome};
ghost use Rattle.machine.specs.Run.{ran};

use crate::advance::advance;
use crate::decide::admit;
use crate::state::{State, assemble, other_of, registers_of};
use crate::stop::Stop;

#[derive(Clone, Copy)]
pub struct Ran {
    pub state: State,
    pub count: u32,
    pub stop: Stop,
}

// Checks 20 and 1 to 3, at a limit of 0 too; then a seat's steps to the limit or to a stop.
pub fn run(
    s: State,
    seat: u32,
    deck: &[u16],
    memory: &mut [u16],
    protect: &[u8],
    journal: &mut [u32],
    limit: u32,
) -> Ran
    ensures { outcome (machine result.state memory.new journal.new) result.count (number_of result.stop)
        ≡ ran deck.now (bitwise protect.now) seat limit (machine s memory.old journal.old) }
{
    let own = registers_of(s, seat);
    let other = other_of(s, seat);
    let start = own.status;
    let beside = other.status;
    let used = s.used;
    let words = journal.len();
    if let Err(stop) = admit(
        seat,
        s.seat0.status,
        s.seat1.status,
        used,
        deck.len(),
        protect,
        memory.len(),
        words,
    ) {
        return Ran {
            state: s,
            count: 0,
            stop,
        };
    }
    let mut float = own.float;
    let mut general = own.general;
    let r = advance(
        seat,
        &mut float,
        &mut general,
        start.condition,
        start.mask,
        start.pointer,
        start.selector,
        beside,
        used,
        deck,
        memory,
        protect,
        journal,
        limit,
    );
    let status = r.status();
    let state = assemble(seat, float, general, status, other, r.used);
    let count = r.count;
    let stop = r.stop;
    Ran { state, count, stop }
}

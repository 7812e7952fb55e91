// Runs the deck of document 01's example from cells, at seat 0, steps it back to the start and forward
// again, and writes what stands after each call: the call, its steps, stop, pointer, condition code, mask,
// used count and selector; then the float registers and both sets of general ones.
#![tactic(auto)]

ghost use Rattle.protection.specs.Bits.{bitwise};
ghost use Rattle.machine.specs.Machine.{machine};
ghost use Rattle.machine.specs.Stops.{number_of};
ghost use Rattle.example.specs.Return.{Returned};

use machine::{State, Stop};
use trial::{Called, Words};

// How a step and the back step after it ended, whose step was taken back, and the state that they leave.
#[derive(Clone, Copy)]
struct Return {
    state: State,
    step: Stop,
    back: Stop,
    whose: Option<u32>,
}

// A step, and the back step after it where it was taken. State and memory are then as they were, and the
// step is said to be its seat's: that holds for whatever is lent, since a halfword of a `&mut [u16]` has
// 16 bits.
fn step_and_return(
    s: State,
    seat: u32,
    deck: &[u16],
    memory: &mut [u16],
    protect: &[u8],
    journal: &mut [u32],
) -> Return
    ensures { Returned deck.now (bitwise protect.now) seat (machine s memory.old journal.old)
        (machine result.state memory.new journal.new) (number_of result.step) (number_of result.back) result.whose }
{
    let there = machine::step(s, seat, deck, memory, protect, journal);
    let step = there.stop;
    // Kept: the stop by its number, of which `Returned` speaks; `Stop::Taken` would want a law over all 17 and say no more.
    if machine::number(step) != 0 {
        return Return {
            state: there.state,
            step,
            back: Stop::Taken,
            whose: None,
        };
    }
    let again = machine::back(there.state, memory, protect, journal);
    Return {
        state: again.state,
        step,
        back: again.stop,
        whose: again.whose,
    }
}

// The registers of seat 0 after a call, by name. A line that cannot be written is left out.
fn show(rt: HostRuntime, name: &str, r: Called) {
    let seat = r.state.seat0;
    let status = seat.status;
    let _ = println!(rt;
        "{name} {} {} {} {} {} {} {}",
        r.count,
        u8::from(r.stop),
        status.pointer,
        status.condition,
        status.mask,
        r.state.used,
        status.selector
    );
    let _ = println!(rt; "{}", Words(&seat.float));
    let _ = println!(rt; "{}", Words(&seat.general[..8]));
    let _ = println!(rt; "{}", Words(&seat.general[8..]));
}

// What the calls are made on.
#[derive(Clone, Copy)]
struct Session {
    state: State,
    deck: [u16; 16],
    memory: [u16; 4],
    protect: [u8; 1],
    journal: [u32; 16],
}

impl Session {
    // One call, shown.
    fn call(&mut self, rt: HostRuntime, name: &str, byte: u8) {
        let Session {
            state,
            deck,
            memory,
            protect,
            journal,
        } = self;
        let r = trial::call(b'0', byte, *state, deck, memory, protect, journal);
        *state = r.state;
        show(rt, name, r);
    }

    // One step, shown. The step before it, with its return, leaves no trace but in unused journal words.
    fn step(&mut self, rt: HostRuntime) {
        let Session {
            state,
            deck,
            memory,
            protect,
            journal,
        } = self;
        *state = step_and_return(*state, 0, deck, memory, protect, journal).state;
        self.call(rt, "step", b's');
    }
}

fn main(rt: HostRuntime) {
    let mut session = Session {
        state: machine::fresh(),
        // LE 0 0 0, DE 0 0 2, CVFX 1 0 0, HALT 0 0 0
        deck: [2, 0, 0, 0, 12, 0, 0, 2, 9, 1, 0, 0, 22, 0, 0, 0],
        memory: [0x4130, 0, 0x4120, 0],
        protect: [0],
        journal: [0; 16],
    };
    session.call(rt, "run ", b'R');
    for _ in 0..4 {
        session.call(rt, "back", b'b');
    }
    for _ in 0..4 {
        session.step(rt);
    }
}

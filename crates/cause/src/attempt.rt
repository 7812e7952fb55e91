// The stop of an order's own arithmetic, found by a step of a machine that is made for it: the order with
// its S at address 0 and the second operand there, the float registers and the mask. The code of a step
// stands once in a program, and a second place that calls the arithmetic would slow down every step.
ghost use Rattle.std.specs.Prelude.{◌≡◌};
ghost use Rattle.machine.specs.Step.{stepped};
ghost use Rattle.machine.specs.Stops.{number_of};
ghost use Rattle.cause.specs.Attempt.{halfwords_of, attempt_deck, attempt_protect, attempt_machine};

use hexfloat::Words;
use machine::{Registers, State, Status, Stop};
use orders::Order;

fn halfwords(b: Words) -> [u16; 4]
    ensures { result ≡ halfwords_of b }
{
    [
        (b.high / 65536) as u16,
        (b.high % 65536) as u16,
        (b.low / 65536) as u16,
        (b.low % 65536) as u16,
    ]
}

// How the step ends.
pub fn attempt(o: Order, second: Words, float: [u32; 8], mask: u32) -> Stop
    ensures { number_of result ≡ (stepped (attempt_deck o) attempt_protect 0 (attempt_machine float mask second)).stop }
{
    let general = [0; 16]; // no index
    let status = Status {
        condition: 0,
        mask,
        pointer: 0,
        selector: 0,
    };
    let registers = Registers {
        float,
        general,
        status,
    };
    let state = State {
        seat0: registers,
        seat1: registers, // check 3 looks at both seats
        used: 0,
    };
    let deck = [o.code, o.r1, o.r2, 0];
    let mut memory = halfwords(second);
    let protect = [0; 1];
    let mut journal = [0; 4];
    let stepped = machine::step(state, 0, &deck, &mut memory, &protect, &mut journal);
    stepped.stop
}

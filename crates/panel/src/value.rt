// The machine's functions on values, with the number of the stop for the stop.
ghost use Rattle.std.specs.Prelude.{◌≡◌};
ghost use Rattle.protection.specs.Bits.{bitwise};
ghost use Rattle.machine.specs.Machine.{machine};
ghost use Rattle.machine.specs.Step.{outcome};
ghost use Rattle.machine.specs.Run.{ran};
ghost use Rattle.machine.specs.Back.{backed};
ghost use Rattle.cause.specs.Cause.{why_of};
ghost use Rattle.panel.specs.Back.{seat_said, TakenBack};
ghost use Rattle.panel.specs.Explain.{explanation_of};

use cause::{Cause, Named};
use machine::State;

// Kept: numbers, here and in the other structs, since C receives them.
//
// What C receives of a call with two answers: 0 or the number of its refusal, and a count, a line or a seat.
#[repr(C)]
#[derive(Clone, Copy)]
pub struct Answer {
    pub number: u32,
    pub value: u32,
}

// The state after a run or a back step, and what C receives of it.
#[derive(Clone, Copy)]
pub struct Answered {
    pub state: State,
    pub answer: Answer,
}

pub fn run_by_value(
    s: State,
    seat: u32,
    deck: &[u16],
    memory: &mut [u16],
    protect: &[u8],
    journal: &mut [u32],
    limit: u32,
) -> Answered
    ensures { outcome (machine result.state memory.new journal.new) result.answer.value result.answer.number
        ≡ ran deck.now (bitwise protect.now) seat limit (machine s memory.old journal.old) }
{
    let r = machine::run(s, seat, deck, memory, protect, journal, limit);
    let state = r.state;
    let stop = r.stop;
    let number = machine::number(stop) as u32;
    let answer = Answer {
        number,
        value: r.count,
    };
    Answered { state, answer }
}

// 0 too where no step was taken back: the number tells.
fn seat_said(whose: Option<u32>) -> u32
    ensures { result ≡ seat_said whose }
{
    whose.unwrap_or(0)
}

pub fn back_by_value(s: State, memory: &mut [u16], protect: &[u8], journal: &mut [u32]) -> Answered
    ensures { TakenBack (machine result.state memory.new journal.new) result.answer
        (backed (bitwise protect.now) (machine s memory.old journal.old)) }
{
    let r = machine::back(s, memory, protect, journal);
    let state = r.state;
    let stop = r.stop;
    let whose = r.whose;
    let number = machine::number(stop) as u32;
    let value = seat_said(whose);
    let answer = Answer { number, value };
    Answered { state, answer }
}

// What C receives of a cause: its number, and as many values as count says; the others are 0.
#[repr(C)]
#[derive(Clone, Copy)]
pub struct Explanation {
    pub number: u32,
    pub count: u32,
    pub values: [u32; 4],
}

fn explain(c: Cause) -> Explanation
    ensures { result ≡ explanation_of c }
{
    let number = c.number as u32;
    let named = c.named;
    match named {
        Named::Nothing => Explanation {
            number,
            count: 0,
            values: [0, 0, 0, 0],
        },
        Named::Cell(cell) => Explanation {
            number,
            count: 1,
            values: [u32::from(cell), 0, 0, 0],
        },
        Named::Address(a) => Explanation {
            number,
            count: 1,
            values: [a, 0, 0, 0],
        },
        Named::OneWord(a) => Explanation {
            number,
            count: 1,
            values: [a, 0, 0, 0],
        },
        Named::TwoWords(a, b) => Explanation {
            number,
            count: 2,
            values: [a, b, 0, 0],
        },
        Named::FourWords(a, b, c, d) => Explanation {
            number,
            count: 4,
            values: [a, b, c, d],
        },
    }
}

pub fn why_by_value(
    s: State,
    seat: u32,
    deck: &[u16],
    memory: &[u16],
    protect: &[u8],
    journal: &[u32],
) -> Explanation
    ensures { result ≡ explanation_of (why_of deck.now (bitwise protect.now) seat (machine s memory.now journal.now)) }
{
    explain(cause::why(s, seat, deck, memory, protect, journal))
}

// What C receives of a piece of the chart: 0 or the number of the refusal, how many orders there are, and how
// many were written.
#[repr(C)]
#[derive(Clone, Copy)]
pub struct Piece {
    pub number: u32,
    pub total: u32,
    pub written: u32,
}

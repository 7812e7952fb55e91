// The bench panel's functions, for C. Those over a lent state copy out what the function on values
// takes, and store what comes back. None has a `requires`. What a call answers comes back
// by value, so that a refusal writes nothing at all, free words of the journal after a 21 aside.
#![tactic(auto)]

mod finding;
mod interval;
mod value;

ghost use Rattle.std.specs.Prelude.{◌≡◌};
ghost use Rattle.protection.specs.Bits.{bitwise};
ghost use Rattle.machine.specs.Fresh.{fresh_state};
ghost use Rattle.machine.specs.Machine.{machine};
ghost use Rattle.machine.specs.Step.{single, stepped, outcome};
ghost use Rattle.machine.specs.Run.{ran};
ghost use Rattle.machine.specs.Back.{backed};
ghost use Rattle.cause.specs.Cause.{why_of};
ghost use Rattle.chart.specs.Piece.{chart_into};
ghost use Rattle.decktext.specs.Read.{buffers, read_text};
ghost use Rattle.panel.specs.Back.{TakenBack};
ghost use Rattle.panel.specs.Chart.{piece_of};
ghost use Rattle.panel.specs.Explain.{explanation_of};
ghost use Rattle.panel.specs.Reply.{reply, replied};
ghost use Rattle.panel.specs.Stretch.{TellsStretch};
ghost use Rattle.panel.specs.Unset.{Tells};

use finding::{Finding, told};
use interval::{Interval, stretch_by_value};
use machine::State;
use value::{Answer, Explanation, Piece, back_by_value, run_by_value, why_by_value};

// The state of a machine that was just switched on.
#[unsafe(no_mangle)]
pub extern "C" fn panel_fresh(state: &mut State)
    ensures { state.new ≡ fresh_state }
{
    *state = machine::fresh();
}

// One order of a seat; 0, or the number of the stop. A step changes one seat at most, and copying the
// whole state would take longer than it: only that seat and the other's status are copied.
#[unsafe(no_mangle)]
pub extern "C" fn panel_step(
    state: &mut State,
    seat: u32,
    deck: &[u16],
    memory: &mut [u16],
    protect: &[u8],
    journal: &mut [u32],
) -> u8
    ensures { single (machine state.new memory.new journal.new) result
        ≡ stepped deck.now (bitwise protect.now) seat (machine state.old memory.old journal.old) }
{
    let own;
    let other;
    if seat == 0 {
        own = state.seat0;
        other = state.seat1.status;
    } else {
        own = state.seat1;
        other = state.seat0.status;
    }
    let stepped = machine::step_seat(own, other, seat, state.used, deck, memory, protect, journal);
    if seat == 0 {
        state.seat0 = stepped.registers;
    } else {
        state.seat1 = stepped.registers;
    }
    state.used = stepped.used;
    machine::number(stepped.stop)
}

// Steps of a seat to the limit or to a stop; the number is 0 or the stop's, the value the steps taken.
#[unsafe(no_mangle)]
pub extern "C" fn panel_run(
    state: &mut State,
    seat: u32,
    deck: &[u16],
    memory: &mut [u16],
    protect: &[u8],
    journal: &mut [u32],
    limit: u32,
) -> Answer
    ensures { outcome (machine state.new memory.new journal.new) result.value result.number
        ≡ ran deck.now (bitwise protect.now) seat limit (machine state.old memory.old journal.old) }
{
    let ran = run_by_value(*state, seat, deck, memory, protect, journal, limit);
    *state = ran.state;
    ran.answer
}

// The last step taken back, of either seat; the number is 0 or the refusal's, the value whose step it was.
#[unsafe(no_mangle)]
pub extern "C" fn panel_back(
    state: &mut State,
    memory: &mut [u16],
    protect: &[u8],
    journal: &mut [u32],
) -> Answer
    ensures { TakenBack (machine state.new memory.new journal.new) result
        (backed (bitwise protect.now) (machine state.old memory.old journal.old)) }
{
    let undone = back_by_value(*state, memory, protect, journal);
    *state = undone.state;
    undone.answer
}

// Reads a deck text; the number is 0 and the value the order count, or the refusal's number and line.
#[unsafe(no_mangle)]
pub extern "C" fn panel_read(
    text: &[u8],
    cells: &mut [u16],
    memory: &mut [u16],
    protect: &mut [u8],
) -> Answer
    ensures { reply (buffers cells.new memory.new (bitwise protect.new)) result.number result.value
        ≡ replied (read_text text.now (buffers cells.old memory.old (bitwise protect.old))) }
{
    match decktext::read(text, cells, memory, protect) {
        Ok(count) => Answer {
            number: 0,
            value: count,
        },
        Err(refusal) => Answer {
            number: u8::from(refusal) as u32,
            value: refusal.line(),
        },
    }
}

// Why the next step of a seat is stopped: the number, and what it names; nothing is written.
#[unsafe(no_mangle)]
pub extern "C" fn panel_why(
    state: &State,
    seat: u32,
    deck: &[u16],
    memory: &[u16],
    protect: &[u8],
    journal: &[u32],
) -> Explanation
    ensures { result
        ≡ explanation_of (why_of deck.now (bitwise protect.now) seat (machine state.now memory.now journal.now)) }
{
    why_by_value(*state, seat, deck, memory, protect, journal)
}

// The chart of every legal order with `at` below the bound, from a rank on, as much as the cells hold.
#[unsafe(no_mangle)]
pub extern "C" fn panel_chart(bound: u16, rank: u32, cells: &mut [u16]) -> Piece
    ensures { (cells.new ≡ (chart_into bound rank cells.old).cells)
        × (result ≡ piece_of (chart_into bound rank cells.old).said) }
{
    match chart::list(bound, rank, cells) {
        None => Piece {
            number: 19,
            total: 0,
            written: 0,
        },
        Some(piece) => Piece {
            number: 0,
            total: piece.total,
            written: piece.written,
        },
    }
}

// The lowest order that reads a register which some path reaches it without having written; nothing is written.
#[unsafe(no_mangle)]
pub extern "C" fn panel_unset(deck: &[u16]) -> Finding
    ensures { Tells deck.now result }
{
    told(unset::first_unset(deck))
}

// The shortest stretch of orders, from a seat's pointer on, that still stops as the run from there does. Trials are made on
// the lent memory and journal and taken back, so the state is only read.
#[unsafe(no_mangle)]
pub extern "C" fn panel_stretch(
    state: &State,
    seat: u32,
    deck: &[u16],
    memory: &mut [u16],
    protect: &[u8],
    journal: &mut [u32],
) -> Interval
    ensures { TellsStretch deck.now (bitwise protect.now) seat (machine state.now memory.old journal.old)
        (machine state.now memory.new journal.new) result }
{
    stretch_by_value(*state, seat, deck, memory, protect, journal)
}

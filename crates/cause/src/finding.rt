// The checks of a step in the table's order, each with its cause.
ghost use Rattle.std.specs.Prelude.{◌≡◌, ◌≤◌};
ghost use Rattle.protection.specs.Bits.{bitwise};
ghost use Rattle.machine.specs.Decide.{accessed, judged_at};
ghost use Rattle.machine.specs.Machine.{machine};
ghost use Rattle.machine.specs.Operand.{address_in};
ghost use Rattle.machine.specs.Stops.{number_of};
ghost use Rattle.cause.specs.Attempt.{Accessible};
ghost use Rattle.cause.specs.Arithmetic.{stop_in};
ghost use Rattle.cause.specs.declared.naming.Named.{Named};
ghost use Rattle.cause.specs.Cause.{cause, explained, why_of};

use crate::attempt::attempt;
use crate::cell::first_broken;
use crate::naming::{Cause, NO_CAUSE, Named};
use crate::storage::{lowest_absent, lowest_protected};
use crate::words::words_read;
use machine::{Registers, State, Stop};
use orders::{LegalOrder, Order, legal, order_at};

// A stop of the next step, and what brought it about.
fn stopped(stop: Stop, named: Named) -> Cause
    ensures { result ≡ cause (number_of stop) named }
{
    Cause {
        number: machine::number(stop),
        named,
    }
}

// A stop that names nothing.
fn alone(stop: Stop) -> Cause
    ensures { result ≡ cause (number_of stop) Named.Nothing }
{
    stopped(stop, Named::Nothing)
}

// No stop, or HALT, or a journal that is full.
fn no_cause() -> Cause
    ensures { result ≡ cause 18 Named.Nothing }
{
    Cause {
        number: NO_CAUSE,
        named: Named::Nothing,
    }
}

// Checks 6 and 7 of a legal order, and 8 to 11, for which it is tried.
fn access(l: LegalOrder, registers: Registers, memory: &[u16], protect: &[u8]) -> Cause
    requires { Accessible l.operation registers }
    ensures { result ≡ explained (stop_in (accessed l.order registers (bitwise protect.now) memory.now (address_in l.order registers) l.operation)) l.order registers memory.now (address_in l.order registers) (bitwise protect.now) }
{
    let o = l.order;
    let op = l.operation;
    let float = registers.float;
    let general = registers.general;
    let status = registers.status;
    let selector = status.selector as u32;
    let at = o.address(&general, selector);
    let Ok(q) = machine::fetch(o, &float, &general, selector, memory) else {
        let absent = lowest_absent(at, op.span(), memory.len());
        return stopped(Stop::AbsentStorage, Named::Address(absent));
    };
    let n = op.stored();
    let a = lowest_protected(protect, at, n);
    if a < at + n {
        return stopped(Stop::ProtectedStorage, Named::Address(a));
    }
    let stop = attempt(o, q.second, float, status.mask);
    // Kept: the stop by its number, as `stepped` gives it; `== Stop::Taken` would want a law over all 17 and say no more.
    if machine::number(stop) == 0 {
        return no_cause(); // taken
    }
    stopped(stop, words_read(q))
}

// Checks 5, 12 and 13, and the others.
fn examine(
    o: Order,
    registers: Registers,
    used: u32,
    memory: &[u16],
    protect: &[u8],
    journal: usize,
) -> Cause
    requires { registers.status.mask ≤ 1 }
    ensures { result ≡ explained (stop_in (judged_at o registers used (bitwise protect.now) memory.now journal)) o registers memory.now (address_in o registers) (bitwise protect.now) }
{
    let Some(l) = legal(o) else {
        return stopped(Stop::IllegalOrder, Named::Cell(first_broken(o)));
    };
    if l.operation.verb.halts() {
        return no_cause(); // a step's 12
    }
    if used as usize >= journal / 4 {
        return no_cause(); // a step's 13
    }
    access(l, registers, memory, protect)
}

// Why the next step of a seat is stopped. Takes what a step takes, and writes nothing.
pub fn why(
    s: State,
    seat: u32,
    deck: &[u16],
    memory: &[u16],
    protect: &[u8],
    journal: &[u32],
) -> Cause
    ensures { result ≡ why_of deck.now (bitwise protect.now) seat (machine s memory.now journal.now) }
{
    let registers = machine::registers_of(s, seat);
    let status = registers.status;
    if let Err(stop) = machine::admit(
        seat,
        s.seat0.status,
        s.seat1.status,
        s.used,
        deck.len(),
        protect,
        memory.len(),
        journal.len(),
    ) {
        return alone(stop);
    }
    if status.pointer as usize >= deck.len() / 4 {
        return alone(Stop::PointerPast);
    }
    let o = order_at(deck, status.pointer);
    examine(o, registers, s.used, memory, protect, journal.len())
}

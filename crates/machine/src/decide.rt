// Every check of a step, in the table's order.
ghost use Rattle.std.specs.Prelude.{◌≡◌};
ghost use Rattle.hexfloat.specs.Answer.{checked, gives};
ghost use Rattle.protection.specs.Bits.{bitwise};
ghost use Rattle.orders.specs.Address.{address_of};
ghost use Rattle.machine.specs.Decide.{held_stop, entry_stop, judged, decided};
ghost use Rattle.machine.specs.Machine.{registers};
ghost use Rattle.machine.specs.Seats.{seated, Beside};
ghost use Rattle.machine.specs.Stops.{number_of};
ghost use Rattle.machine.specs.Says.{says, says_passed};

use crate::check::{any_protected, buffers_sized, deck_sized, is_present, state_formed};
use crate::deck::order_at;
use crate::effect::effect;
use crate::state::{Onward, Status};
use crate::stop::Stop;
use crate::verdict::Verdict;
use orders::{LegalOrder, legal};

// Checks 2 and 3.
#[tactic(auto, unfolding(crate::specs::Decide::held_stop))]
pub fn held(
    s: Status,
    other: Status,
    used: u32,
    protect: &[u8],
    memory: usize,
    journal: usize,
) -> Result<(), Stop>
    ensures { says_passed result ≡ checked (held_stop (bitwise protect.now) s other used memory journal) (gives tt) }
{
    if !buffers_sized(protect, memory, journal) {
        return Err(Stop::BufferSize);
    }
    if !state_formed(s, other, used, journal) {
        return Err(Stop::StateForm);
    }
    Ok(())
}

// Checks 20 and 1 to 3, of a call that is given a seat.
#[tactic(auto, unfolding(crate::specs::Decide::entry_stop))]
pub fn admit(
    seat: u32,
    s: Status,
    other: Status,
    used: u32,
    deck: usize,
    protect: &[u8],
    memory: usize,
    journal: usize,
) -> Result<(), Stop>
    ensures { says_passed result ≡ checked (entry_stop seat deck (bitwise protect.now) s other used memory journal) (gives tt) }
{
    let sized = deck_sized(deck);
    if 1 < seat {
        return Err(Stop::SeatAbsent);
    }
    if !sized {
        return Err(Stop::DeckSize);
    }
    held(s, other, used, protect, memory, journal)
}

// Kept: by its promise, which CONDITIONS and DECISIONS name; `admit` says the same by a `Result`.
pub fn entry(
    seat: u32,
    s: Status,
    other: Status,
    used: u32,
    deck: usize,
    protect: &[u8],
    memory: usize,
    journal: usize,
) -> Stop
    ensures { number_of result ≡ entry_stop seat deck (bitwise protect.now) s other used memory journal }
{
    match admit(seat, s, other, used, deck, protect, memory, journal) {
        Ok(()) => Stop::Taken,
        Err(stop) => stop,
    }
}

// Checks 12, 13, 6 and 7 of a legal order, then its effect.
fn judge(
    l: LegalOrder,
    float: &[u32; 8],
    general: &[u32; 16],
    s: Onward,
    used: u32,
    memory: &[u16],
    protect: &[u8],
    journal: usize,
) -> Verdict
    ensures { says result
        ≡ judged l.order (registers float.now general.now s.status) used (bitwise protect.now) memory.now (address_of l.order general.now s.status.selector) journal l.operation }
{
    let op = l.operation;
    let full = used as usize >= journal / 4;
    if op.verb.halts() {
        return Err(Stop::Halted);
    }
    if full {
        return Err(Stop::JournalFull);
    }
    let at = l.order.address(general, s.status.selector as u32);
    if !is_present(op.span(), at, memory.len()) {
        return Err(Stop::AbsentStorage);
    }
    if any_protected(protect, at, op.stored()) {
        return Err(Stop::ProtectedStorage);
    }
    effect(l, float, general, s, memory, at)
}

// Every check of a seat's step, or its effect. Of the other seat the status is looked at and nothing else.
pub fn decide(
    seat: u32,
    float: &[u32; 8],
    general: &[u32; 16],
    status: Status,
    other: Status,
    used: u32,
    deck: &[u16],
    memory: &[u16],
    protect: &[u8],
    journal: usize,
) -> Verdict
    ensures { Beside other (λ o. says result
        ≡ decided deck.now (bitwise protect.now) seat (seated seat (registers float.now general.now status) o used) memory.now journal) }
{
    admit(
        seat,
        status,
        other,
        used,
        deck.len(),
        protect,
        memory.len(),
        journal,
    )?;
    let p = status.pointer as usize;
    if p >= deck.len() / 4 {
        return Err(Stop::PointerPast);
    }
    let Some(l) = legal(order_at(deck, p)) else {
        return Err(Stop::IllegalOrder);
    };
    let s = Onward { status };
    judge(l, float, general, s, used, memory, protect, journal)
}

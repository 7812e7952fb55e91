// A step taken back.
ghost use Rattle.std.specs.Prelude.{◌≡◌};
ghost use Rattle.protection.specs.Bits.{bitwise};
ghost use Rattle.machine.specs.Says.{says};
ghost use Rattle.machine.specs.Stops.{number_of};
ghost use Rattle.machine.specs.Machine.{machine};
ghost use Rattle.machine.specs.Back.{allowed, returning, back_outcome, backed};

use crate::change::{is_guarded, is_placed, registers_after, store};
use crate::decide::held;
use crate::journal::{decode, read_record, seat_in};
use crate::state::{State, other_of, registers_of, seat_down};
use crate::stop::Stop;
use crate::verdict::{Effect, Verdict};

// With the seat whose step was taken back, if one was.
#[derive(Clone, Copy)]
pub struct Undone {
    pub state: State,
    pub stop: Stop,
    pub whose: Option<u32>,
}

// Check 15 of an effect that a record gives: its halfwords are there, and none is protected.
#[tactic(auto, unfolding(crate::specs::Back::allowed))]
fn allow(e: Effect, protect: &[u8], memory: usize) -> Verdict
    ensures { says result ≡ allowed e (bitwise protect.now) memory }
{
    let ch = e.change;
    if !is_placed(ch, memory) {
        return Err(Stop::RecordForm);
    }
    if is_guarded(protect, ch) {
        Err(Stop::RecordForm)
    } else {
        Ok(e)
    }
}

// Checks 2, 3, 14 and 15, or what the last record puts back.
fn recall(s: State, memory: usize, protect: &[u8], journal: &[u32]) -> Verdict
    ensures { says result ≡ returning (bitwise protect.now) s memory journal.now }
{
    held(
        s.seat0.status,
        s.seat1.status,
        s.used,
        protect,
        memory,
        journal.len(),
    )?;
    let used = s.used;
    if used == 0 {
        return Err(Stop::NothingBefore);
    }
    let e = decode(read_record(journal, used - 1))?;
    allow(e, protect, memory)
}

// The last step taken back, whichever seat's it was; the journal's words stay.
pub fn back(s: State, memory: &mut [u16], protect: &[u8], journal: &mut [u32]) -> Undone
    ensures { back_outcome (machine result.state memory.new journal.new) (number_of result.stop) result.whose
        ≡ backed (bitwise protect.now) (machine s memory.old journal.old) }
{
    let v = recall(s, memory.len(), protect, journal);
    match v {
        Err(k) => Undone {
            state: s,
            stop: k,
            whose: None,
        },
        Ok(e) => {
            let change = e.change;
            let used = s.used - 1;
            let seat = seat_in(read_record(journal, used));
            store(change, memory);
            let own = registers_after(e, registers_of(s, seat));
            let other = other_of(s, seat);
            let state = seat_down(seat, own, other, used);
            Undone {
                state,
                stop: Stop::Taken,
                whose: Some(seat),
            }
        }
    }
}

// Steps on lent registers: the one place that has the code of a step.
ghost use Rattle.std.specs.Prelude.{◌≡◌};
ghost use Rattle.protection.specs.Bits.{bitwise};
ghost use Rattle.machine.specs.Status.{status};
ghost use Rattle.machine.specs.Stops.{number_of};
ghost use Rattle.machine.specs.Machine.{machine_of};
ghost use Rattle.machine.specs.Seats.{Beside};
ghost use Rattle.machine.specs.Step.{outcome};
ghost use Rattle.machine.specs.Run.{steps_of};

use crate::change::{put, store};
use crate::decide::decide;
use crate::journal::{record_of, write_record};
use crate::state::Status;
use crate::stop::Stop;
use crate::verdict::Verdict;

// What stands after some steps beside the registers and the lent buffers, and how the steps ended. The
// parts of the status are apart, and no two stand here side by side that do so in the state: loaded as
// one word, they would wait for two stores.
#[derive(Clone, Copy)]
pub struct Advanced {
    pub used: u32,
    pub condition: u32,
    pub count: u32,
    pub mask: u32,
    pub pointer: u16,
    pub stop: Stop,
    pub selector: u16,
}

impl Advanced {
    pub fn status(self) -> Status
        ensures { result ≡ status self.condition self.mask self.pointer self.selector }
    {
        Status {
            condition: self.condition,
            mask: self.mask,
            pointer: self.pointer,
            selector: self.selector,
        }
    }
}

fn ended(s: Status, used: u32, count: u32, stop: Stop) -> Advanced
    ensures { (status result.condition result.mask result.pointer result.selector ≡ s) × (result.used ≡ used) × (result.count ≡ count) × (result.stop ≡ stop) }
{
    Advanced {
        used,
        condition: s.condition,
        count,
        mask: s.mask,
        pointer: s.pointer,
        stop,
        selector: s.selector,
    }
}

// A seat's steps to the limit, which is looked at first, or to a stop.
// Kept: both arrays of registers and the status apart, from here down to where a word is read. They are lent and
// changed in place, since a copy of an array that was just stored to waits for the store. So the registers are
// stored to first, before memory and journal. With the status in one piece sums took 1.7 to 1.9 of the tuned
// implementation, and 1.25 to 1.6 since (DECISIONS).
pub fn advance(
    seat: u32,
    float: &mut [u32; 8],
    general: &mut [u32; 16],
    condition: u32,
    mask: u32,
    pointer: u16,
    selector: u16,
    other: Status,
    first: u32,
    deck: &[u16],
    memory: &mut [u16],
    protect: &[u8],
    journal: &mut [u32],
    limit: u32,
) -> Advanced
    ensures { Beside other (λ o. outcome (machine_of seat float.new general.new (status result.condition result.mask result.pointer result.selector) o result.used memory.new journal.new) result.count (number_of result.stop)
        ≡ steps_of deck.now (bitwise protect.now) seat limit (machine_of seat float.old general.old (status condition mask pointer selector) o first memory.old journal.old)) }
{
    let mut now = Status {
        condition,
        mask,
        pointer,
        selector,
    };
    let mut used = first;
    for count in 0..limit {
        let words = journal.len();
        let v = decide(
            seat, float, general, now, other, used, deck, memory, protect, words,
        );
        match v {
            Err(stop) => {
                return ended(now, used, count, stop);
            }
            Ok(e) => {
                let change = e.change;
                let record = record_of(seat, float, general, now, e, memory);
                now = e.status;
                put(change, float, general, now.selector as u32);
                store(change, memory);
                write_record(journal, used, record);
                used += 1;
            }
        }
    }
    ended(now, used, limit, Stop::Taken)
}

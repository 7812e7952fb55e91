// The search for the highest first order.
ghost use Rattle.std.specs.Prelude.{◌≡◌, ◌≤◌};
ghost use Rattle.protection.specs.Bits.{bitwise};
ghost use Rattle.machine.specs.Machine.{machine};
ghost use Rattle.machine.specs.Run.{entry_of};
ghost use Rattle.stretch.specs.Answer.{says_found, Answers, TakenBack, Asked};
ghost use Rattle.stretch.specs.Jump.{HasJump};
ghost use Rattle.stretch.specs.Search.{Latest};

use crate::answer::{Answer, Refusal, Stretch};
use crate::jump::has_jump;
use crate::trying::{run_and_return, stops_alike};
use machine::State;

// The highest order from the pointer to the last from which a run stops alike; the pointer where no later one does.
fn latest(
    s: State,
    seat: u32,
    pointer: u16,
    last: u16,
    number: u8,
    deck: &[u16],
    memory: &mut [u16],
    protect: &[u8],
    journal: &mut [u32],
) -> u16
    requires { pointer ≤ last }
    ensures { Latest deck.now (bitwise protect.now) seat (machine s memory.old journal.old)
        (machine s memory.new journal.new) pointer last number result }
{
    for before in (pointer..last).rev() {
        let first = before + 1;
        if stops_alike(s, seat, first, last, number, deck, memory, protect, journal) {
            return first;
        }
    }
    pointer
}

// The stretch in a deck without jumps, where the checks pass.
// Kept: the stop by its number, here and in trying.rt, as `SixToEleven` and `stops_alike` are of numbers.
fn search(
    s: State,
    seat: u32,
    deck: &[u16],
    memory: &mut [u16],
    protect: &[u8],
    journal: &mut [u32],
) -> Result<Stretch, Refusal>
    requires { (entry_of deck.now (bitwise protect.now) seat (machine s memory.old journal.old) ≡ 0) × (HasJump deck.now → ⊥) }
    ensures { Answers deck.now (bitwise protect.now) seat (machine s memory.old journal.old) (says_found result)
        × TakenBack (machine s memory.old journal.old) (machine s memory.new journal.new) }
{
    let whole = run_and_return(s, seat, deck, memory, protect, journal, 4294967295);
    let after = whole.state;
    let stop = whole.stop;
    let number = machine::number(stop);
    if number < 6 {
        return Err(Refusal::Unsuited);
    }
    if 11 < number {
        return Err(Refusal::Unsuited);
    }
    let own = machine::registers_of(s, seat);
    let stopped = machine::registers_of(after, seat);
    let last = stopped.status.pointer;
    let first = latest(
        s,
        seat,
        own.status.pointer,
        last,
        number,
        deck,
        memory,
        protect,
        journal,
    );
    Ok(Stretch { first, last, stop })
}

// The shortest stretch of consecutive orders, from the pointer on to where the run stops, that still stops there by the same
// number. State and memory are as they were, and so is the journal up to the used count.
#[tactic(auto, using(crate::proofs::Answering::answering))]
pub fn shortest(
    s: State,
    seat: u32,
    deck: &[u16],
    memory: &mut [u16],
    protect: &[u8],
    journal: &mut [u32],
) -> Answer
    ensures { Asked deck.now (bitwise protect.now) seat (machine s memory.old journal.old)
        (machine result.state memory.new journal.new) (says_found result.found) }
{
    let checks = machine::admit(
        seat,
        s.seat0.status,
        s.seat1.status,
        s.used,
        deck.len(),
        protect,
        memory.len(),
        journal.len(),
    );
    let jump = has_jump(deck);
    if let Err(stop) = checks {
        return Answer {
            state: s,
            found: Err(Refusal::Stopped(stop)),
        };
    }
    if jump {
        return Answer {
            state: s,
            found: Err(Refusal::Unsuited),
        };
    }
    let found = search(s, seat, deck, memory, protect, journal);
    Answer { state: s, found }
}

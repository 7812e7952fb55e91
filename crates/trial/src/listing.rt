// One call after the other.
ghost use Rattle.std.specs.Prelude.{◌≡◌, ◌+◌, ◌*◌, ◌<◌, ◌≤◌, IsOk, length};
ghost use Rattle.protection.specs.Bits.{bitwise};
ghost use Rattle.machine.specs.Machine.{machine};
ghost use Rattle.trial.specs.Call.{after_calls};

use crate::calling::call;
use crate::case::Ended;
use crate::output::write_line;
use machine::State;

// What stands after the calls that were made, and whether each has its line.
#[derive(Clone, Copy)]
pub struct Listed {
    pub state: State,
    pub made: usize,
    pub written: Result<(), Ended>,
}

// Makes one call after the other, two bytes each, and writes a line for each; ends early where a line is not written.
pub fn list(
    rt: HostRuntime,
    calls: &[u8],
    start: State,
    deck: &[u16],
    memory: &mut [u16],
    protect: &[u8],
    journal: &mut [u32],
) -> Listed
    ensures stands { (2 * result.made ≤ length calls.now)
        × (machine result.state memory.new journal.new
        ≡ after_calls calls.now deck.now (bitwise protect.now) result.made (machine start memory.old journal.old)) }
    ensures all { IsOk result.written → length calls.now < 2 * result.made + 2 }
{
    let mut state = start;
    let mut made = 0;
    let mut written = Ok(());
    for pair in calls.chunks_exact(2) {
        let seat = pair[0];
        let byte = pair[1];
        let r = call(seat, byte, state, deck, memory, protect, journal);
        state = r.state;
        made += 1;
        written = write_line(rt, &[seat, byte, b' '], r);
        if written.is_err() {
            break;
        }
    }
    Listed {
        state,
        made,
        written,
    }
}

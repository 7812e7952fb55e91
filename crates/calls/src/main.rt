// Runs lists of calls on decks: each case is a deck text and two bytes for each call.
//
// A case is a line `LLLLL CCCCC`, the length of the text and the number of calls, then the text, the calls
// and a line feed. A call is its seat, `-` for a back step, and its kind. For each call a line is written
// with its answer and every register of both seats, and after the calls of a case one line with the first
// 64 halfwords of memory.
#![tactic(auto)]

use trial::{Desk, Ended, Joined, Program};

// Makes the calls from a fresh state and writes what each answers; then the first 64 halfwords of memory.
fn run_case(rt: HostRuntime, text: &[u8], calls: &[u8]) -> Result<(), Ended> {
    let desk = &mut Desk::<16384, 4096>::blank();
    let count = desk.read(text)?;
    let deck = &desk.cells[..count];
    let fresh = machine::fresh();
    let listed = trial::list(
        rt,
        calls,
        fresh,
        deck,
        &mut desk.memory,
        &desk.protect,
        &mut desk.journal,
    );
    listed.written?;
    println!(rt; "{:04}", Joined(&desk.memory[..64]))?;
    Ok(())
}

struct Cases;

impl Program for Cases {
    fn one_case(rt: HostRuntime) -> Result<(), Ended> {
        let head: [u8; 12] = trial::first_line(rt)?;
        let [length, count] = trial::numbers(10, &head, [5, 5])?;
        let mut space = [0u8; 100000];
        let mut room = [0u8; 100000];
        let calls = room.get_mut(..count as usize * 2).ok_or(Ended::Malformed)?;
        let text = trial::read_text(rt, &mut space, length as usize)?;
        trial::read_line(rt, calls)?;
        run_case(rt, text, calls)
    }
}

fn main(rt: HostRuntime) {
    trial::each_case::<Cases>(rt, b"calls: a case is not of the form\n");
}

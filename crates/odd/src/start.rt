// A state as it is given, whatever it holds.
//
// It has three lines, in digits 0-9 A-F: `UUUUUUUU`, the used count, and for each seat `CC MM PPPP SS`, condition code,
// mask, pointer and selector, with the 24 registers after it, floats, set 0 and set 1.
use machine::{Registers, State, Status};
use trial::Ended;

fn read_used(rt: HostRuntime) -> Result<u32, Ended> {
    let mut line = [0u8; 8];
    trial::read_line(rt, &mut line)?;
    trial::number(16, &line)
}

fn read_seat(rt: HostRuntime) -> Result<Registers, Ended> {
    let mut line = [0u8; 229];
    trial::read_line(rt, &mut line)?;
    let [condition, mask, pointer, selector] = trial::numbers(16, &line, [2, 2, 4, 2])?;
    Ok(Registers {
        float: trial::numbers(16, &line[14..], [8; 8])?,
        general: trial::numbers(16, &line[86..], [8; 16])?,
        status: Status {
            condition,
            mask,
            pointer: (pointer & 0xffff) as u16,
            selector: (selector & 0xffff) as u16,
        },
    })
}

pub fn read_start(rt: HostRuntime) -> Result<State, Ended> {
    let used = read_used(rt)?;
    let seat0 = read_seat(rt);
    let seat1 = read_seat(rt);
    Ok(State {
        seat0: seat0?,
        seat1: seat1?,
        used,
    })
}

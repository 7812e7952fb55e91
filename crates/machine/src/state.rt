// The state of both seats, and its fresh form.
ghost use Rattle.std.specs.Prelude.{◌≡◌, ◌+◌, ◌<◌};
ghost use Rattle.machine.specs.Fresh.{fresh_state};
ghost use Rattle.machine.specs.Machine.{registers};
ghost use Rattle.machine.specs.Seats.{registers_of, other_of, seated};

// What word 0 of a record saves: condition code, underflow mask, the order that comes next, and which
// set of general registers is in use. No padding arises, and the size is one at which the compiler
// keeps the parts apart: four or eight bytes would be one word.
// Kept: numbers, as C has them.
#[repr(C)]
#[derive(Clone, Copy)]
pub struct Status {
    pub condition: u32,
    pub mask: u32,
    pub pointer: u16,
    pub selector: u16,
}

// A status from which the pointer can move on by one.
#[derive(Clone, Copy)]
pub struct Onward {
    pub status: Status,
    pub ghost room: { status.pointer + 1 < 65536 },
}

// The registers that a seat's orders see; of the general ones both sets, register r of set s at 8 s + r. The
// status stands between the arrays: side by side, they would be copied once more.
#[repr(C)]
#[derive(Clone, Copy)]
pub struct Registers {
    pub float: [u32; 8],
    pub status: Status,
    pub general: [u32; 16],
}

// Kept: two fields for the seats, as C has them, and so a test of the seat wherever one is taken or put down.
//
// The registers of both seats, and how many records of the journal, which they share, are in use.
#[repr(C)]
#[derive(Clone, Copy)]
pub struct State {
    pub seat0: Registers,
    pub seat1: Registers,
    pub used: u32,
}

#[tactic(auto, unfolding(crate::specs::Seats::registers_of))]
pub fn registers_of(s: State, seat: u32) -> Registers
    ensures { result ≡ registers_of seat s }
{
    if seat == 0 { s.seat0 } else { s.seat1 }
}

// Those of the seat that was not given.
#[tactic(auto, unfolding(crate::specs::Seats::other_of))]
pub fn other_of(s: State, seat: u32) -> Registers
    ensures { result ≡ other_of seat s }
{
    if seat == 0 { s.seat1 } else { s.seat0 }
}

// The state in which a seat has these registers, and the other seat those.
pub fn seat_down(seat: u32, own: Registers, other: Registers, used: u32) -> State
    ensures { result ≡ seated seat own other used }
{
    if seat == 0 {
        State {
            seat0: own,
            seat1: other,
            used,
        }
    } else {
        State {
            seat0: other,
            seat1: own,
            used,
        }
    }
}

// The state of these parts.
pub fn assemble(
    seat: u32,
    float: [u32; 8],
    general: [u32; 16],
    status: Status,
    other: Registers,
    used: u32,
) -> State
    ensures { result ≡ seated seat (registers float general status) other used }
{
    let own = Registers {
        float,
        general,
        status,
    };
    seat_down(seat, own, other, used)
}

// The state of a machine that was just switched on.
pub fn fresh() -> State
    ensures { result ≡ fresh_state }
{
    let status = Status {
        condition: 0,
        mask: 0,
        pointer: 0,
        selector: 0,
    };
    let registers = Registers {
        float: [0; 8],
        general: [0; 16],
        status,
    };
    State {
        seat0: registers,
        seat1: registers,
        used: 0,
    }
}

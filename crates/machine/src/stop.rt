// How a call ends.
ghost use Rattle.std.specs.Prelude.{◌≡◌};
ghost use Rattle.hexfloat.specs.Result.{fault_number};
ghost use Rattle.machine.specs.Stops.{number_of};

use hexfloat::Fault;

// How a call ended. The paper's number of each is `number`.
// Kept: `Taken`, number 0, of which theorem `zero_is_taken` and the promise of `entry` speak.
#[derive(Clone, Copy, PartialEq, Eq)]
pub enum Stop {
    Taken,
    DeckSize,
    BufferSize,
    StateForm,
    PointerPast,
    IllegalOrder,
    AbsentStorage,
    ProtectedStorage,
    ZeroDivisor,
    Overflow,
    Underflow,
    ConvertOverflow,
    Halted,
    JournalFull,
    NothingBefore,
    RecordForm,
    SeatAbsent,
}

impl From<Stop> for u8 {
    ghost from_gives = { λ s n. n ≡ number_of s };

    fn from(s: Stop) -> u8 {
        match s {
            Stop::Taken => 0,
            Stop::DeckSize => 1,
            Stop::BufferSize => 2,
            Stop::StateForm => 3,
            Stop::PointerPast => 4,
            Stop::IllegalOrder => 5,
            Stop::AbsentStorage => 6,
            Stop::ProtectedStorage => 7,
            Stop::ZeroDivisor => 8,
            Stop::Overflow => 9,
            Stop::Underflow => 10,
            Stop::ConvertOverflow => 11,
            Stop::Halted => 12,
            Stop::JournalFull => 13,
            Stop::NothingBefore => 14,
            Stop::RecordForm => 15,
            Stop::SeatAbsent => 20,
        }
    }
}

pub fn number(s: Stop) -> u8
    ensures { result ≡ number_of s }
{
    u8::from(s)
}

// A fault of the arithmetic stops the order.
impl From<Fault> for Stop {
    ghost from_gives = { λ f s. number_of s ≡ fault_number f };

    fn from(f: Fault) -> Stop {
        match f {
            Fault::ZeroDivisor => Stop::ZeroDivisor,
            Fault::Overflow => Stop::Overflow,
            Fault::Underflow => Stop::Underflow,
        }
    }
}

// Why a text is refused.
ghost use Rattle.std.specs.Prelude.{◌≡◌};
ghost use Rattle.decktext.specs.Fault.{fault_number};
ghost use Rattle.decktext.specs.Read.{says_refusal, refused, number_said, line_said};

use crate::fault::Fault;

// A refusal with its line. Line 0 is a text above its limit.
#[derive(Clone, Copy, PartialEq, Eq)]
pub enum Refusal {
    Malformed(u32),
    NoRoom(u32),
}

impl Refusal {
    pub fn line(self) -> u32
        ensures { result ≡ line_said (says_refusal self) }
    {
        match self {
            Refusal::Malformed(line) | Refusal::NoRoom(line) => line,
        }
    }
}

// The number of a refusal.
impl From<Refusal> for u8 {
    ghost from_gives = { λ r n. n ≡ number_said (says_refusal r) };

    fn from(r: Refusal) -> u8 {
        match r {
            Refusal::Malformed(_) => 16,
            Refusal::NoRoom(_) => 17,
        }
    }
}

impl Fault {
    pub fn at(self, line: u32) -> Refusal
        ensures { says_refusal result ≡ refused (fault_number self) line }
    {
        match self {
            Fault::Malformed => Refusal::Malformed(line),
            Fault::NoRoom => Refusal::NoRoom(line),
        }
    }
}

// What the tool answers.
ghost use Rattle.std.specs.Prelude.{◌≡◌, ◌<◌};
ghost use Rattle.unset.specs.Answer.{refusal_number, says_register};
ghost use Rattle.unset.specs.Bits.{register_of};

// A register with its number in its kind.
#[derive(Clone, Copy)]
pub enum Register {
    Float(u32),
    Set0(u32),
    Set1(u32),
}

// The deck's cells are no multiple of 4, or too many; or some order of it is not legal, reached or not.
#[derive(Clone, Copy)]
pub enum Refusal {
    DeckSize,
    IllegalOrder,
}

impl From<Refusal> for u8 {
    ghost from_gives = { λ r n. n ≡ refusal_number r };

    fn from(r: Refusal) -> u8 {
        match r {
            Refusal::DeckSize => 1,
            Refusal::IllegalOrder => 5,
        }
    }
}

// An order, and the register that it reads and that a path reaches unwritten.
#[derive(Clone, Copy)]
pub struct Unset {
    pub order: u32,
    pub register: Register,
}

// Register k of the 24: the floats, set 0, set 1.
#[tactic(auto, unfolding(crate::specs::Bits::register_of))]
pub fn register_of(k: u32) -> Register
    requires { k < 24 }
    ensures { says_register result ≡ register_of k }
{
    if k < 8 {
        return Register::Float(k);
    }
    if k < 16 {
        return Register::Set0(k - 8);
    }
    Register::Set1(k - 16)
}

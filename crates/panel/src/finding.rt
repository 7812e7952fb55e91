// A register that is read before it is set, as C receives it.
ghost use Rattle.std.specs.Prelude.{◌≡◌};
ghost use Rattle.unset.specs.Answer.{says_found, says_register};
ghost use Rattle.panel.specs.Unset.{finding_of, nameless, naming};

use unset::{Refusal, Register, Unset};

// 0 or the number of the refusal; 1 if there is such a read, else 0; then its order, the register's kind (0 a float,
// 1 a general one of set 0, 2 of set 1) and its number, which are 0 where there is none.
#[repr(C)]
#[derive(Clone, Copy)]
pub struct Finding {
    pub number: u32,
    pub found: u32,
    pub order: u32,
    pub kind: u32,
    pub reg: u32,
}

fn nothing(number: u32) -> Finding
    ensures { result ≡ nameless number }
{
    Finding {
        number,
        found: 0,
        order: 0,
        kind: 0,
        reg: 0,
    }
}

fn named(order: u32, register: Register) -> Finding
    ensures { result ≡ naming order (says_register register) }
{
    let (kind, reg) = match register {
        Register::Float(k) => (0, k),
        Register::Set0(k) => (1, k),
        Register::Set1(k) => (2, k),
    };
    Finding {
        number: 0,
        found: 1,
        order,
        kind,
        reg,
    }
}

pub fn told(found: Result<Option<Unset>, Refusal>) -> Finding
    ensures { result ≡ finding_of (says_found found) }
{
    match found {
        Ok(Some(unset)) => named(unset.order, unset.register),
        Ok(None) => nothing(0),
        Err(refusal) => nothing(u8::from(refusal) as u32),
    }
}

// What r1 of an order is to it: the registers that it reads there, and those that it writes.
ghost use Rattle.std.specs.Prelude.{◌≡◌};
ghost use Rattle.orders.specs.Role.{role_read, role_written};

use crate::order::Verb;

// The registers that r1 names.
// Kept: `Nothing` among the roles, as in specs/Role; by an `Option` each match would have as many arms.
#[derive(Clone, Copy)]
pub enum Role {
    Nothing,
    // R r1, or pair r1, by the width of the operands.
    Operand,
    // What a product of such operands fills.
    Product,
    // R r1.
    Float,
    // G r1.
    General,
}

impl Verb {
    // As it is read. A load, a complement and a conversion do not read what they write to.
    pub fn role_read(self) -> Role
        ensures { result ≡ role_read self }
    {
        match self {
            Verb::Compare | Verb::Divide | Verb::Store | Verb::Sum(_) | Verb::Multiply =>
                Role::Operand,
            Verb::StoreGeneral => Role::General,
            Verb::CountDown => Role::General, // it reads first, then writes
            _ => Role::Nothing,
        }
    }

    // As it is written.
    pub fn role_written(self) -> Role
        ensures { result ≡ role_written self }
    {
        match self {
            Verb::Load | Verb::Complement | Verb::Divide | Verb::Sum(_) => Role::Operand,
            Verb::Multiply => Role::Product,
            Verb::Float => Role::Float,
            Verb::Fix | Verb::LoadGeneral | Verb::CountDown => Role::General,
            _ => Role::Nothing,
        }
    }
}

// An order that passes check 5.
ghost use Rattle.std.specs.Prelude.{◌≡◌};
ghost use Rattle.hexfloat.specs.Answer.{gives};
ghost use Rattle.orders.specs.Order.{legal_of};

use crate::order::{Operation, Order};

// With its row of the table.
#[derive(Clone, Copy)]
pub struct LegalOrder {
    pub order: Order,
    pub operation: Operation,
    pub ghost legal: { legal_of order ≡ gives operation },
}

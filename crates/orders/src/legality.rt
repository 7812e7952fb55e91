// Check 5.
ghost use Rattle.std.specs.Prelude.{◌≡◌, IfSome};
ghost use Rattle.orders.specs.Legality.{says_legality};
ghost use Rattle.orders.specs.Order.{legal_of};

use crate::legal_order::LegalOrder;
use crate::order::{Order, look_up};

// Check 5: the order with its operation, where the code is known and every cell is within its limit.
#[tactic(auto, unfolding(crate::specs::Order::legal_of, crate::specs::Order::within_limits))]
pub fn legal(order: Order) -> Option<LegalOrder>
    ensures said { says_legality result ≡ legal_of order }
    ensures same { IfSome result (λ l. l.order ≡ order) }
{
    let operation = look_up(order.code)?;
    if operation.r1 < order.r1 {
        return None;
    }
    if operation.r2 < order.r2 {
        return None;
    }
    if operation.at < order.at {
        return None;
    }
    Some(LegalOrder { order, operation })
}

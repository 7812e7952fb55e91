// The deck's orders.
ghost use Rattle.std.specs.Prelude.{◌≡◌, get_or};
ghost use Rattle.orders.specs.Order.{order_at};

use crate::order::Order;

fn cell_at(deck: &[u16], i: usize) -> u16
    ensures { result ≡ get_or deck.now i 0 }
{
    deck.get(i).copied().unwrap_or(0)
}

// Order p, for callers that have made no check: a cell that is not there is 0.
pub fn order_at(deck: &[u16], p: u16) -> Order
    ensures { result ≡ order_at deck.now p }
{
    let i = p as usize * 4;
    Order {
        code: cell_at(deck, i),
        r1: cell_at(deck, i + 1),
        r2: cell_at(deck, i + 2),
        at: cell_at(deck, i + 3),
    }
}

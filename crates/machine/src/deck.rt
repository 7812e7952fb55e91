// The deck's cells.
ghost use Rattle.std.specs.Prelude.{◌≡◌, ◌+◌, ◌*◌, ◌≤◌, length};
ghost use Rattle.orders.specs.Order.{order_at};

use orders::Order;

// Kept: beside the one of `orders`, which asks of each cell whether it is there. By that one short compares took 1.45
// of the tuned implementation, where 1.2 is the bar and this one takes 1.18.
pub fn order_at(deck: &[u16], p: usize) -> Order
    requires { p * 4 + 4 ≤ length deck.now }
    ensures { result ≡ order_at deck.now p }
{
    let i = p * 4;
    Order {
        code: deck[i],
        r1: deck[i + 1],
        r2: deck[i + 2],
        at: deck[i + 3],
    }
}

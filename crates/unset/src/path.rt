// Where a path goes on from an order.
ghost use Rattle.std.specs.Prelude.{◌≡◌, ◌≤◌, ◌<◌};
ghost use Rattle.unset.specs.Path.{selector_after};
ghost use Rattle.unset.specs.Search.{index_of};

use orders::{Order, Verb};

// An order, and the selector with which it is reached.
#[derive(Clone, Copy)]
pub struct Point {
    pub order: u32,
    pub selector: u32,
}

// Where a point of the deck stands among the places.
pub fn index(x: Point) -> usize
    requires { (x.order < 4096) × (x.selector ≤ 1) }
    ensures { result ≡ index_of x }
{
    (x.order * 2 + x.selector) as usize
}

// SET puts its r2 into the selector; every other order keeps it.
pub fn selector_after(verb: Verb, o: Order, s: u32) -> u32
    ensures { result ≡ selector_after verb o s }
{
    if verb.selects() {
        return o.r2 as u32;
    }
    s
}

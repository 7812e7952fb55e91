// The address of the storage operand.
ghost use Rattle.std.specs.Prelude.{◌≡◌};
ghost use Rattle.orders.specs.Address.{index_of, address_of};

use crate::general::general_at;
use crate::order::Order;

// What r2 adds to the address: the lower halfword of G r2. Register 0 cannot hold an index.
#[tactic(auto, unfolding(crate::specs::Address::index_of))]
fn index(r: u16, general: &[u32; 16], selector: u32) -> u32
    ensures { result ≡ index_of r general.now selector }
{
    if r == 0 {
        return 0;
    }
    general_at(general, selector, r as u32) % 65536
}

impl Order {
    // The address of S, up to 131,070: the one place that computes it.
    pub fn address(self, general: &[u32; 16], selector: u32) -> u32
        ensures { result ≡ address_of self general.now selector }
    {
        self.at as u32 + index(self.r2, general, selector)
    }
}

// The orders of the desk: document 01's table, check 5, what an order reads and writes, general registers,
// and the address of the storage operand.
//
// What is public takes an order of any content and has no `requires`.
#![tactic(auto)]

mod addressing;
mod deck;
mod general;
mod legal_order;
mod legality;
mod order;
mod role;

pub use deck::order_at;
pub use general::{general_at, general_cell};
pub use legal_order::LegalOrder;
pub use legality::legal;
pub use order::{Operation, Order, Place, Verb, look_up};
pub use role::Role;

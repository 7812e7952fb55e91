// Registers read before they are set (document 02, Job 11): the lowest order of a deck that reads a
// register which some path from order 0 reaches without having written it, and the register.
//
// A search to a fixed point: for each order and selector, the registers that reach it unwritten are the
// bits of a word. A place is taken up again only when its word has gained a bit, so the work is bounded by
// places times registers. What is public has no `requires`.
#![tactic(auto)]

mod answer;
mod bits;
mod finding;
mod path;
mod search;
mod uses;

pub use answer::{Refusal, Register, Unset};
pub use finding::first_unset;

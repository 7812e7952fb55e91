// Why the next step of a seat is stopped (document 02, Jobs 5 and 12): the number of its stop, and what brought it about.
//
// The checks of a step are made in the table's order, each with a search for its cause. Nothing is written,
// and no function that this file exports has a `requires`.
#![tactic(auto)]

mod attempt;
mod cell;
mod finding;
mod naming;
mod storage;
mod words;

pub use cell::Cell;
pub use finding::why;
pub use naming::{Cause, NO_CAUSE, Named};

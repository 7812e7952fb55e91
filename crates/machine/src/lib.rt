// The machine on the desk: registers, checks, effects, journal; step, run and back step.
//
// A step decides first and writes afterwards, so a stop leaves everything as it was. What this file
// exports has no `requires` and one equation with a definition of specs/ as its whole contract; functions
// between the modules may have a `requires`. `fresh`, `step`, `run` and `back` hand a state back,
// `step_seat` what a step leaves of its seat; `registers_of`, `deck_sized`, `admit`, `entry`, `fetch`
// and `product_width` are for tools that ask and write nothing.
//
// Kept: deck, memory, protect list and journal apart in every call. C lends each by itself, and the clauses speak of
// two as they are and of two as they were and become, so a struct of all would be taken apart in each.
#![tactic(auto)]

mod advance;
mod change;
mod check;
mod decide;
mod deck;
mod effect;
mod fetching;
mod journal;
mod jump;
mod operand;
mod running;
mod state;
mod stepping;
mod stop;
mod undoing;
mod verdict;

pub use check::deck_sized;
pub use decide::{admit, entry};
pub use effect::product_width;
pub use fetching::{Operands, fetch};
pub use running::{Ran, run};
pub use state::{Registers, State, Status, fresh, registers_of};
pub use stepping::{SeatStepped, Stepped, step, step_seat};
pub use stop::{Stop, number};
pub use undoing::{Undone, back};

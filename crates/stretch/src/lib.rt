// The shortest stretch of orders that still stops (document 02, Job 13).
//
// A trial is a run from another order, with all else as it was. It is made on the lent memory and journal and taken back,
// so that both stand as before but for journal words past the used count. What this file exports has no `requires`.
#![tactic(auto)]

mod answer;
mod jump;
mod restoring;
mod search;
mod trying;

pub use answer::{Answer, Refusal, Stretch};
pub use search::shortest;

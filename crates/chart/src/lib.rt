// The chart of every legal order (document 02, Job 10): for a bound n, each order that passes check 5 with
// `at` below n where it is in use, rising by code, then r1, r2, at.
//
// The chart is had in pieces, from any rank on. What is public has no `requires`.
#![tactic(auto)]

mod block;
mod listing;
mod series;

pub use listing::{Piece, list};

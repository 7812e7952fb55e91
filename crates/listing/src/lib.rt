// From deck text to the bytes that `desk` writes.
#![tactic(auto)]

mod digit;
mod listing;
mod text;

pub use listing::{Listing, answer, reading};

// The protect list: one bit a halfword (document 02, Job 6).
//
// What is public takes a list of any length and content and has no `requires`. Nothing else in the
// product knows where the bit of an address is.
#![tactic(auto)]

mod bit;
mod list;

pub use list::{byte_of, cover, is_protected, mark};

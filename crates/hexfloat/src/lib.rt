// Hexadecimal floating point of the AP-101S, digit for digit (Principles of Operation, section 8).
//
// What is public takes words of any content and has no `requires`; the functions behind it, which the
// modules offer each other alone, may have one. What each means is a definition of specs/, which
// speaks of exact values as whole numbers.
#![tactic(auto)]

mod addition;
mod alignment;
mod comparison;
mod condition_code;
mod convert;
mod division;
mod multiplication;
mod normal;
mod result;
mod signed;
mod word;

pub use addition::{Sense, sum};
pub use comparison::compare;
pub use condition_code::{complement, condition, general_condition};
pub use convert::{to_fixed, to_float};
pub use division::divide;
pub use multiplication::multiply;
pub use result::Fault;
pub use word::{Coded, Width, Words};

// The reader of deck text: one order a line, then halfwords of memory with their protect digits.
//
// The whole text is checked before anything is written, so a refused text leaves every buffer as it
// was. The format is a definition of specs/ over lines and values.
#![tactic(auto)]

mod deck;
mod digit;
mod fault;
mod given;
mod line;
mod mnemonic;
mod reader;
mod refusal;
mod span;
mod staged;
mod tables;
mod value;

pub use deck::{line_of, number_of, read};
pub use refusal::Refusal;

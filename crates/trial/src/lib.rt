// What most of the gate's programs share: cases, input by lines and numbers, a call by its two bytes, and
// what is shown of it.
//
// What a program writes is held to outside vectors, so the contracts here speak of what is read and of the
// calls; of the text that is written it is proved that it is made safely.
#![tactic(auto)]

mod answer;
mod calling;
mod case;
mod desk;
mod digits;
mod input;
mod listing;
mod output;

pub use answer::{Joined, Standing, Words};
pub use calling::{Called, call};
pub use case::{Ended, Program, case_follows, each_case};
pub use desk::{Desk, change};
pub use digits::{number, numbers};
pub use input::{first_line, read_bytes, read_line, read_text};
pub use listing::{Listed, list};

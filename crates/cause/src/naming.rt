// What the tool answers.
use crate::cell::Cell;

// What is named beside a number.
// Kept: `Nothing` among the cases, as in specs/Cause; by an `Option` each match would have as many arms.
#[derive(Clone, Copy)]
pub enum Named {
    Nothing,
    Cell(Cell),
    Address(u32),
    OneWord(u32),
    TwoWords(u32, u32),
    FourWords(u32, u32, u32, u32),
}

// The number where a stop of the next step is none of 20 and 1 to 11, or there is none.
pub const NO_CAUSE: u8 = 18;

// The number of the stop that the next step gives, or `NO_CAUSE`.
// Kept: a number, of which theorem `true_cause` speaks.
#[derive(Clone, Copy)]
pub struct Cause {
    pub number: u8,
    pub named: Named,
}

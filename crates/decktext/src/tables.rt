// The two tables that values are read by.
ghost use Rattle.decktext.specs.DigitTable.{DigitTable};
ghost use Rattle.decktext.specs.Key.{SlotTable};

use crate::digit::digit_table;
use crate::mnemonic::slot_table;

// The compiler puts a constant array on the stack wherever it is used, so the tables are copied once a
// text, and lent to the functions that read values.
#[derive(Drop)]
pub struct Tables {
    pub digits: [u8; 256],
    pub slots: [u64; 64],
    ghost each_digit: { DigitTable digits },
    ghost each_key: { SlotTable slots },
}

impl Tables {
    pub fn new() -> Self {
        Tables {
            digits: digit_table(),
            slots: slot_table(),
        }
    }
}

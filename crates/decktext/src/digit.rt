// Hexadecimal digits by table.
ghost use Rattle.std.specs.Prelude.{◌≡◌};
ghost use Rattle.decktext.specs.Value.{marked_digit};
ghost use Rattle.decktext.specs.DigitTable.{DigitTable};

use crate::tables::Tables;

// The value of a digit 0-9 A-F, or 16 for a byte that is none.
pub fn digit(b: u8, tables: &Tables) -> u8
    ensures { result ≡ marked_digit b }
{
    tables.digits[b as usize]
}

// Called once a text, by `Tables::new`.
pub fn digit_table() -> [u8; 256]
    ensures { DigitTable result }
{
    DIGITS
}

// The mark of a byte that is no digit.
// Kept: a number, which `marked_digit` gives for such a byte, so that one test tells it and a digit that is too large.
const NONE: u8 = 16;

// One entry for each byte value.
const DIGITS: [u8; 256] = [
    // bytes from 0x00 on
    NONE, NONE, NONE, NONE, NONE, NONE, NONE, NONE, NONE, NONE, NONE, NONE, NONE, NONE, NONE, NONE,
    // bytes from 0x10 on
    NONE, NONE, NONE, NONE, NONE, NONE, NONE, NONE, NONE, NONE, NONE, NONE, NONE, NONE, NONE, NONE,
    // bytes from 0x20 on
    NONE, NONE, NONE, NONE, NONE, NONE, NONE, NONE, NONE, NONE, NONE, NONE, NONE, NONE, NONE, NONE,
    // bytes from 0x30 on
    0, // 0
    1, // 1
    2, // 2
    3, // 3
    4, // 4
    5, // 5
    6, // 6
    7, // 7
    8, // 8
    9, // 9
    NONE, NONE, NONE, NONE, NONE, NONE,
    // bytes from 0x40 on
    NONE, 10, // A
    11, // B
    12, // C
    13, // D
    14, // E
    15, // F
    NONE, NONE, NONE, NONE, NONE, NONE, NONE, NONE, NONE,
    // bytes from 0x50 on
    NONE, NONE, NONE, NONE, NONE, NONE, NONE, NONE, NONE, NONE, NONE, NONE, NONE, NONE, NONE, NONE,
    // bytes from 0x60 on
    NONE, NONE, // a
    NONE, // b
    NONE, // c
    NONE, // d
    NONE, // e
    NONE, // f
    NONE, NONE, NONE, NONE, NONE, NONE, NONE, NONE, NONE,
    // bytes from 0x70 on
    NONE, NONE, NONE, NONE, NONE, NONE, NONE, NONE, NONE, NONE, NONE, NONE, NONE, NONE, NONE, NONE,
    // bytes from 0x80 on
    NONE, NONE, NONE, NONE, NONE, NONE, NONE, NONE, NONE, NONE, NONE, NONE, NONE, NONE, NONE, NONE,
    // bytes from 0x90 on
    NONE, NONE, NONE, NONE, NONE, NONE, NONE, NONE, NONE, NONE, NONE, NONE, NONE, NONE, NONE, NONE,
    // bytes from 0xA0 on
    NONE, NONE, NONE, NONE, NONE, NONE, NONE, NONE, NONE, NONE, NONE, NONE, NONE, NONE, NONE, NONE,
    // bytes from 0xB0 on
    NONE, NONE, NONE, NONE, NONE, NONE, NONE, NONE, NONE, NONE, NONE, NONE, NONE, NONE, NONE, NONE,
    // bytes from 0xC0 on
    NONE, NONE, NONE, NONE, NONE, NONE, NONE, NONE, NONE, NONE, NONE, NONE, NONE, NONE, NONE, NONE,
    // bytes from 0xD0 on
    NONE, NONE, NONE, NONE, NONE, NONE, NONE, NONE, NONE, NONE, NONE, NONE, NONE, NONE, NONE, NONE,
    // bytes from 0xE0 on
    NONE, NONE, NONE, NONE, NONE, NONE, NONE, NONE, NONE, NONE, NONE, NONE, NONE, NONE, NONE, NONE,
    // bytes from 0xF0 on
    NONE, NONE, NONE, NONE, NONE, NONE, NONE, NONE, NONE, NONE, NONE, NONE, NONE, NONE, NONE, NONE,
];

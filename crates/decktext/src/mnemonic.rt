// Mnemonics by table.
ghost use Rattle.std.specs.Prelude.{◌≡◌, length, ◌≤◌, ◌<◌};
ghost use Rattle.decktext.specs.Value.{says_value, mnemonic_code};
ghost use Rattle.decktext.specs.Key.{name_key, code_by_key, SlotTable};

use crate::tables::Tables;

// The code of a mnemonic.
pub fn mnemonic_code(v: &[u8], tables: &Tables) -> Option<u16>
    ensures { says_value result ≡ mnemonic_code v.now }
{
    if 4 < v.len() {
        return None;
    }
    look_up(key(v), tables)
}

// The bytes of a name as one number, and its length.
fn key(v: &[u8]) -> u64
    requires { length v.now ≤ 4 }
    ensures { (result ≡ name_key v.now) × (result < 34359738368) }
{
    let mut n: u64 = 0;
    for b in v {
        n = n * 256 + *b as u64;
    }
    n * 8 + v.len() as u64
}

// One multiplication finds the only slot where the key can stand.
#[tactic(auto, unfolding(crate::specs::Key::slot_of))]
fn look_up(key: u64, tables: &Tables) -> Option<u16>
    requires { key < 34359738368 }
    ensures { says_value result ≡ code_by_key key }
{
    let e = tables.slots[(key * 1725579 / 0x400_0000 % 64) as usize];
    if e / 64 == key {
        Some((e % 64) as u16)
    } else {
        None
    }
}

// Called once a text, by `Tables::new`. (A `match` on the slot is compiled to a jump through a table,
// which took three tenths of the reader's time.)
pub fn slot_table() -> [u64; 64]
    ensures { SlotTable result }
{
    SLOTS
}

// The key and the code in each slot, or 0. Slot 0 is taken, so no name has the key of an empty slot.
const SLOTS: [u64; 64] = [
    // slots from 0 on
    0x868a88c8, // CED
    0,
    0xa68a88a51d, // SEDR
    0x868aa4c5, // CER
    0,
    0x86ac8c990a, // CVFL
    0x948694, // JC
    0x86ac8cb109, // CVFX
    // slots from 8 on
    0x949c95, // JN
    0,
    0,
    0x888a8c, // DE
    0xaa9a93, // UM
    0,
    0,
    0x9851, // L
    // slots from 16 on
    0,
    0xa68a88de, // SED
    0x908298a916, // HALT
    0,
    0xa68aa4d9, // SER
    0xa68aa8e3, // SET
    0x868a86, // CE
    0,
    // slots from 24 on
    0,
    0,
    0,
    0x9a8a88e2, // MED
    0xa6a88a8910, // STED
    0,
    0x9a8aa4df, // MER
    0,
    // slots from 32 on
    0,
    0xa68a9a, // SE
    0x868a88a507, // CEDR
    0,
    0xa6a892, // ST
    0x9a8aa0, // ME
    0,
    0xa6a88acf, // STE
    // slots from 40 on
    0,
    0x888a88ce, // DED
    0,
    0,
    0x888aa4cb, // DER
    0x828a98, // AE
    0x828a88dc, // AED
    0,
    // slots from 48 on
    0x988a82, // LE
    0x828aa4d7, // AER
    0x988a88c3, // LED
    0,
    0x988a86a504, // LECR
    0x988aa4c1, // LER
    0x828a88a51b, // AEDR
    0,
    // slots from 56 on
    0x888a88a50d, // DEDR
    0,
    0,
    0,
    0,
    0,
    0x9a8a88a521, // MEDR
    0,
];

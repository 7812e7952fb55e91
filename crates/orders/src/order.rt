// The orders: document 01's table.
ghost use Rattle.std.specs.Prelude.{◌≡◌};
ghost use Rattle.orders.specs.Order.{row, on_float, on_general, on_storage, on_cells, operation_of, says_row, span_of, stored_of, halfwords, is_halt, is_jump, is_select};

use hexfloat::{Sense, Width};

// The four cells of an order.
// Kept: named one by one where an order is read or written; an array of four would be made to be taken apart.
#[derive(Clone, Copy)]
pub struct Order {
    pub code: u16,
    pub r1: u16,
    pub r2: u16,
    pub at: u16,
}

// What an order does.
#[derive(Clone, Copy)]
pub enum Verb {
    Load,
    Complement,
    Compare,
    Fix,
    Float,
    Divide,
    Store,
    LoadGeneral,
    StoreGeneral,
    SetMask,
    Jump,
    CountDown,
    Halt,
    Sum(Sense),
    Multiply,
    Select,
}

// Where its second operand is.
// Kept: `Nowhere` among the places, as in specs/Order; by an `Option` each match would have as many arms.
#[derive(Clone, Copy)]
pub enum Place {
    Nowhere,
    FloatRegister,
    GeneralRegister,
    Storage,
}

// A row of the table; r1, r2 and at are the largest that the cells may be.
#[derive(Clone, Copy)]
pub struct Operation {
    pub verb: Verb,
    pub width: Width,
    pub place: Place,
    pub r1: u16,
    pub r2: u16,
    pub at: u16,
}

fn row(verb: Verb, width: Width, place: Place, r1: u16, r2: u16, at: u16) -> Operation
    ensures { result ≡ row verb width place r1 r2 at }
{
    Operation {
        verb,
        width,
        place,
        r1,
        r2,
        at,
    }
}

// Kept: four, as each is a word of the table below, and a definition of specs/; with the place as an argument
// every row would name it.
fn on_float(verb: Verb, width: Width) -> Operation
    ensures { result ≡ on_float verb width }
{
    row(verb, width, Place::FloatRegister, 7, 7, 0)
}

fn on_general(verb: Verb, width: Width) -> Operation
    ensures { result ≡ on_general verb width }
{
    row(verb, width, Place::GeneralRegister, 7, 7, 0)
}

fn on_storage(verb: Verb, width: Width) -> Operation
    ensures { result ≡ on_storage verb width }
{
    row(verb, width, Place::Storage, 7, 7, 65535)
}

fn on_cells(verb: Verb, r1: u16, r2: u16, at: u16) -> Operation
    ensures { result ≡ on_cells verb r1 r2 at }
{
    row(verb, Width::Short, Place::Nowhere, r1, r2, at)
}

// The row of a code; none where the code is unknown.
#[tactic(auto, unfolding(crate::specs::Order::operation_of, crate::specs::Order::row_among))]
pub fn look_up(code: u16) -> Option<Operation>
    ensures { says_row result ≡ operation_of code }
{
    let operation = match code {
        1 => on_float(Verb::Load, Width::Short), // LER
        2 => on_storage(Verb::Load, Width::Short), // LE
        3 => on_storage(Verb::Load, Width::Long), // LED
        4 => on_float(Verb::Complement, Width::Short), // LECR
        5 => on_float(Verb::Compare, Width::Short), // CER
        6 => on_storage(Verb::Compare, Width::Short), // CE
        7 => on_float(Verb::Compare, Width::Long), // CEDR
        8 => on_storage(Verb::Compare, Width::Long), // CED
        9 => on_float(Verb::Fix, Width::Short), // CVFX
        10 => on_general(Verb::Float, Width::Short), // CVFL
        11 => on_float(Verb::Divide, Width::Short), // DER
        12 => on_storage(Verb::Divide, Width::Short), // DE
        13 => on_float(Verb::Divide, Width::Long), // DEDR
        14 => on_storage(Verb::Divide, Width::Long), // DED
        15 => on_storage(Verb::Store, Width::Short), // STE
        16 => on_storage(Verb::Store, Width::Long), // STED
        17 => on_storage(Verb::LoadGeneral, Width::Short), // L
        18 => on_storage(Verb::StoreGeneral, Width::Short), // ST
        19 => on_cells(Verb::SetMask, 0, 1, 0), // UM
        20 => on_cells(Verb::Jump, 7, 0, 65535), // JC
        21 => on_cells(Verb::CountDown, 7, 0, 65535), // JN
        22 => on_cells(Verb::Halt, 0, 0, 0), // HALT
        23 => on_float(Verb::Sum(Sense::Plus), Width::Short), // AER
        24 => on_storage(Verb::Sum(Sense::Plus), Width::Short), // AE
        25 => on_float(Verb::Sum(Sense::Minus), Width::Short), // SER
        26 => on_storage(Verb::Sum(Sense::Minus), Width::Short), // SE
        27 => on_float(Verb::Sum(Sense::Plus), Width::Long), // AEDR
        28 => on_storage(Verb::Sum(Sense::Plus), Width::Long), // AED
        29 => on_float(Verb::Sum(Sense::Minus), Width::Long), // SEDR
        30 => on_storage(Verb::Sum(Sense::Minus), Width::Long), // SED
        31 => on_float(Verb::Multiply, Width::Short), // MER
        32 => on_storage(Verb::Multiply, Width::Short), // ME
        33 => on_float(Verb::Multiply, Width::Long), // MEDR
        34 => on_storage(Verb::Multiply, Width::Long), // MED
        35 => on_cells(Verb::Select, 0, 1, 0), // SET
        _ => return None,
    };
    Some(operation)
}

fn operand_halfwords(width: Width) -> u32
    ensures { result ≡ halfwords width }
{
    match width {
        Width::Short => 2,
        Width::Long => 4,
    }
}

impl Operation {
    // How many halfwords S has.
    pub fn span(self) -> u32
        ensures { result ≡ span_of self }
    {
        match self.place {
            Place::Nowhere | Place::FloatRegister | Place::GeneralRegister => 0,
            Place::Storage => operand_halfwords(self.width),
        }
    }

    // How many of them are stored to.
    pub fn stored(self) -> u32
        ensures { result ≡ stored_of self }
    {
        match self.verb {
            Verb::Store => operand_halfwords(self.width),
            Verb::StoreGeneral => 2,
            _ => 0,
        }
    }
}

impl Verb {
    // HALT.
    pub fn halts(self) -> bool
        ensures { result ≡ is_halt self }
    {
        matches!(self, Verb::Halt)
    }

    // JC and JN.
    pub fn jumps(self) -> bool
        ensures { result ≡ is_jump self }
    {
        matches!(self, Verb::Jump | Verb::CountDown)
    }

    // SET.
    pub fn selects(self) -> bool
        ensures { result ≡ is_select self }
    {
        matches!(self, Verb::Select)
    }
}

// The cells of an order, and which of them breaks check 5.
ghost use Rattle.std.specs.Prelude.{◌≡◌};
ghost use Rattle.cause.specs.Cell.{first_cell, breaks, place_of};

use orders::{Order, look_up};

#[derive(Clone, Copy)]
pub enum Cell {
    Code,
    R1,
    R2,
    At,
}

impl From<Cell> for u32 {
    ghost from_gives = { λ c n. n ≡ place_of c };

    fn from(c: Cell) -> u32 {
        match c {
            Cell::Code => 0,
            Cell::R1 => 1,
            Cell::R2 => 2,
            Cell::At => 3,
        }
    }
}

// The first cell that breaks the check; `At` where none before it does.
#[tactic(auto, unfolding(crate::specs::Cell::breaks_row, crate::specs::Cell::first_cell))]
pub fn first_broken(o: Order) -> Cell
    ensures { result ≡ first_cell (breaks o) }
{
    let Some(op) = look_up(o.code) else {
        return Cell::Code;
    };
    if op.r1 < o.r1 {
        return Cell::R1;
    }
    if op.r2 < o.r2 {
        return Cell::R2;
    }
    Cell::At
}

// The chart, block after block.
ghost use Rattle.std.specs.Prelude.{◌≡◌, length};
ghost use Rattle.chart.specs.Piece.{says_charted, outcome, chart_into};
ghost use Rattle.chart.specs.Writing.{ProgressFits, Continues};

use crate::block::{Block, block_of, fill_block, fitting, size};

// No order has this code or a higher one.
const CODES: u16 = 36;

// What a call answers: how many orders the chart has, and how many of them were written.
#[derive(Clone, Copy)]
pub struct Piece {
    pub total: u32,
    pub written: u32,
}

// How far the chart is: the orders of the blocks so far, how many are still to skip, and how many are written.
#[derive(Clone, Copy)]
pub struct Progress {
    pub total: u32,
    pub skip: u32,
    pub written: usize,
}

// A block more, in a buffer that has room for so many orders.
fn with_block(cells: &mut [u16], room: usize, b: Block, s: Progress) -> Progress
    requires { ProgressFits (length cells.old) room b s }
    ensures { Continues room b cells.old s cells.new result }
{
    let n = size(b);
    let total = s.total + n;
    let written = s.written;
    let skip = s.skip;
    if n <= skip {
        return Progress {
            total,
            skip: skip - n,
            written,
        };
    }
    if written == room {
        return Progress {
            total,
            skip: 0,
            written,
        };
    }
    let m = fitting(n - skip, room - written);
    Progress {
        total,
        skip: 0,
        written: fill_block(cells, written, b, skip, m),
    }
}

// The orders from rank `rank` on of the chart for the bound n, as many as the buffer holds, into its cells
// from the front. None where the buffer's length is no multiple of four cells: number 19.
pub fn list(n: u16, rank: u32, cells: &mut [u16]) -> Option<Piece>
    ensures { outcome cells.new (says_charted result) ≡ chart_into n rank cells.old }
{
    if cells.len() % 4 != 0 {
        return None;
    }
    let room = cells.len() / 4;
    let mut s = Progress {
        total: 0,
        skip: rank,
        written: 0,
    };
    for code in 0..CODES {
        s = with_block(cells, room, block_of(n, code), s);
    }
    Some(Piece {
        total: s.total,
        written: s.written as u32,
    })
}

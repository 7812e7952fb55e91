// Asks for pieces of the chart of legal orders.
//
// A case is a line `NNNNN RRRRRRRRRR LL`: the bound, the starting rank, and the buffer's length in cells, each of
// which is 65535 before. For each case a line is written with 19, or 0, the total and the orders written, and a
// line with all cells of the buffer.
#![tactic(auto)]

use chart::Piece;
use std::fmt;
use trial::{Ended, Program};

// Cells in decimal, a blank between two.
// Kept: beside trial's `Words`, as one type for both would need the same body for two traits of `fmt`.
#[derive(Clone, Copy)]
struct Cells<'a>(&'a [u16]);

impl fmt::Display for Cells<'_> {
    fn fmt<W: fmt::Write>(&self, f: &mut fmt::Formatter<W>) -> fmt::Result {
        if let Some((first, rest)) = self.0.split_first() {
            write!(f, "{first}")?;
            for cell in rest {
                write!(f, " {cell}")?;
            }
        }
        Ok(())
    }
}

struct Cases;

impl Program for Cases {
    fn one_case(rt: HostRuntime) -> Result<(), Ended> {
        let head: [u8; 20] = trial::first_line(rt)?;
        let [bound, rank, length] = trial::numbers(10, &head, [5, 10, 2])?;
        let bound = u16::try_from(bound).map_err(|_| Ended::Malformed)?;
        let mut space = [65535u16; 64];
        let cells = space.get_mut(..length as usize).ok_or(Ended::Malformed)?;
        match chart::list(bound, rank, cells) {
            None => println!(rt; "19")?,
            Some(Piece { total, written }) => println!(rt; "0 {total} {written}")?,
        }
        println!(rt; "{}", Cells(cells))?;
        Ok(())
    }
}

fn main(rt: HostRuntime) {
    trial::each_case::<Cases>(rt, b"charts: a case is not of the form\n");
}

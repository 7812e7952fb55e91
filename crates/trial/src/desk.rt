// The desk's buffers.
ghost use Rattle.std.specs.Prelude.{◌≡◌, ◌%◌, ◌≤◌, IfOk, replicate, slice_set};
ghost use Rattle.decktext.specs.Read.{buffers, read_text};
ghost use Rattle.protection.specs.Bits.{bitwise};
ghost use Rattle.trial.specs.Desk.{cells_said};
ghost use Rattle.trial.specs.declared.case.Ended.TheVariants.{Malformed};

use crate::case::Ended;
use decktext::Refusal;

impl From<Refusal> for Ended {
    ghost from_gives = { λ _ e. e ≡ Malformed };

    fn from(_e: Refusal) -> Ended {
        Ended::Malformed
    }
}

/// The desk's buffers, with room for a deck of so many cells and a journal of so many words.
#[derive(Clone, Copy)]
pub struct Desk<const CELLS: usize, const WORDS: usize> {
    pub cells: [u16; CELLS],
    pub memory: [u16; 4096],
    pub protect: [u8; 512],
    pub journal: [u32; WORDS],
}

impl<const CELLS: usize, const WORDS: usize> Desk<CELLS, WORDS> {
    pub fn blank() -> Self
        ensures { result ≡ record { cells = replicate CELLS 0; memory = replicate 4096 0; protect = replicate 512 0; journal = replicate WORDS 0 } }
    {
        Desk {
            cells: [0; CELLS],
            memory: [0; 4096],
            protect: [0; 512],
            journal: [0; WORDS],
        }
    }

    /// Reads a deck text, and says how many cells its deck has.
    pub fn read(&mut self, text: &[u8]) -> Result<usize, Ended>
        ensures answer { result ≡ cells_said (read_text text.now (buffers self.old.cells self.old.memory (bitwise self.old.protect))).said }
        ensures buffers { buffers self.new.cells self.new.memory (bitwise self.new.protect)
            ≡ (read_text text.now (buffers self.old.cells self.old.memory (bitwise self.old.protect))).after }
        ensures journal { self.new.journal ≡ self.old.journal }
        ensures fits { IfOk result (λ count. count ≤ CELLS) }
    {
        let Desk {
            cells,
            memory,
            protect,
            ..
        } = self;
        let orders = decktext::read(text, cells, memory, protect)?;
        Ok(orders as usize * 4)
    }
}

/// A cell becomes the value, cut to 16 bits; none does where there is no such cell.
pub fn change(cells: &mut [u16], place: u32, value: u32)
    ensures { cells.new ≡ slice_set cells.old place (value % 65536) }
{
    // Kept: `get_mut` says nothing of what the slice ends as, so with it the clause has no proof.
    let i = place as usize;
    if i < cells.len() {
        cells[i] = (value % 65536) as u16;
    }
}

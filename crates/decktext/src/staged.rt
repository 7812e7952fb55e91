// What the lines gave, staged until the whole text is known to be good.
ghost use Rattle.std.specs.Prelude.{◌≡◌, length};

use crate::given::Given;
use protection::mark;

// The values of the orders, four each, then those of the halfwords, three each, and how many halfwords
// there are. How many orders there are the walk counts.
// Kept: `halfwords` beside the values, as those of a halfword stand after as many orders as the walk counts.
#[derive(Drop)]
pub struct Staged {
    pub values: [u16; 16384],
    pub halfwords: usize,
    ghost size: { length values ≡ 16384 },
}

impl Staged {
    ghost use Rattle.std.specs.Prelude.{◌+◌, ◌≤◌};
    ghost use Rattle.protection.specs.Bits.{bitwise};
    ghost use Rattle.decktext.specs.Walk.{given_of};
    ghost use Rattle.decktext.specs.Staged.{place_after, values_in, halfwords_with, staged_with, with_front, with_words, with_protects, Landing};

    // Stages what a line gives, where n orders came before.
    #[tactic(auto, unfolding(crate::specs::Staged::staged_with))]
    pub fn stage(&mut self, g: Given, n: u32)
        requires { place_after n self.old.halfwords + values_in (given_of g) ≤ 16384 }
        ensures { (self.new.halfwords ≡ halfwords_with (given_of g) self.old.halfwords) × (self.new.values ≡ staged_with (given_of g) n self.old.halfwords self.old.values) }
    {
        let i = n as usize * 4;
        match g {
            Given::Headed => {}
            Given::Ordered(o) => {
                self.values[i] = o.code;
                self.values[i + 1] = o.r1;
                self.values[i + 2] = o.r2;
                self.values[i + 3] = o.at;
            }
            Given::Parted => {}
            Given::Stored(h) => {
                let j = i + self.halfwords * 3;
                self.values[j] = h.at;
                self.values[j + 1] = h.protect;
                self.values[j + 2] = h.word;
                self.halfwords += 1;
            }
        }
    }

    // Writes the cells of the orders, which are the first `end` values.
    pub fn put_orders(&self, end: usize, cells: &mut [u16])
        requires { (end ≤ 16384) × (end ≤ length cells.old) }
        ensures { cells.new ≡ with_front self.now.values end cells.old }
    {
        cells[..end].copy_from_slice(&self.values[..end]);
    }

    // Writes the halfwords, which are staged after the n orders.
    pub fn put_halfwords(&self, n: u32, memory: &mut [u16], protect: &mut [u8])
        requires { Landing self.now.values n self.now.halfwords (length memory.old) }
        ensures { (memory.new ≡ with_words self.now.values n self.now.halfwords memory.old) × (bitwise protect.new ≡ with_protects self.now.values n self.now.halfwords (bitwise protect.old)) }
    {
        let start = n as usize * 4;
        let end = start + self.halfwords * 3;
        for h in self.values[start..end].chunks_exact(3) {
            let at = h[0] as usize;
            memory[at] = h[2];
            mark(protect, at, h[1] == 1);
        }
    }
}

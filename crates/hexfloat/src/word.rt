// Short and long words and their parts (8.1, 8.2).
ghost use Rattle.std.specs.Prelude.{◌≡◌, ◌+◌, ◌*◌};
ghost use Rattle.hexfloat.specs.Word.{digits_of, short_parts, long_parts, parts_of, short_word, long_word, words_of};
ghost use Rattle.hexfloat.specs.Operand.{Operand};

// How many digits an operand has: six or 14.
#[derive(Clone, Copy)]
pub enum Width {
    Short,
    Long,
}

// The words of an operand or a result: a long one's two registers or storage words. A short one
// stands in `high`.
#[derive(Clone, Copy)]
pub struct Words {
    pub high: u32,
    pub low: u32,
}

// A result word with the condition code that it sets.
#[derive(Clone, Copy)]
pub struct Coded {
    pub word: u32,
    pub condition: u8,
}

// A number taken apart.
// Kept: how many digits a fraction has is a `requires` (`Operand`), since with a type for each width the functions
// over both would stand twice. The sign is a number, as the definitions count with it (`sign_by_algebra`).
#[derive(Clone, Copy)]
pub struct Parts {
    pub sign: u32,
    pub characteristic: u32,
    pub fraction: u64,
}

impl Width {
    pub(crate) fn digits(self) -> u32
        ensures { result ≡ digits_of self }
    {
        match self {
            Width::Short => 6,
            Width::Long => 14,
        }
    }
}

impl Words {
    pub(crate) fn parts(self, width: Width) -> Parts
        ensures { result ≡ parts_of width self }
    {
        match width {
            Width::Short => Parts::short(self.high),
            Width::Long => Parts::long(self),
        }
    }
}

impl Parts {
    pub(crate) fn words(self, width: Width) -> Words
        requires { Operand (digits_of width) self }
        ensures { result ≡ words_of width self }
    {
        match width {
            Width::Short => Words {
                high: self.short_word(),
                low: 0,
            },
            Width::Long => self.long_word(),
        }
    }

    // Kept: beside `long`, as `short_word` beside `long_word`. The upper digits of a long fraction stand in another
    // word than the lower ones, so that one function over the width would have a case for each part.
    pub(crate) fn short(w: u32) -> Parts
        ensures { result ≡ short_parts w }
    {
        Parts {
            sign: w / 0x8000_0000,
            characteristic: w / 0x100_0000 % 128,
            fraction: (w % 0x100_0000) as u64,
        }
    }

    fn long(a: Words) -> Parts
        ensures { result ≡ long_parts a }
    {
        let upper = Parts::short(a.high);
        Parts {
            fraction: upper.fraction * 0x1_0000_0000 + a.low as u64,
            ..upper
        }
    }

    pub(crate) fn short_word(self) -> u32
        requires { Operand 6 self }
        ensures { result ≡ short_word self }
    {
        self.sign * 0x8000_0000 + self.characteristic * 0x100_0000 + self.fraction as u32
    }

    fn long_word(self) -> Words
        requires { Operand 14 self }
        ensures { result ≡ long_word self }
    {
        let upper = (self.fraction / 0x1_0000_0000) as u32;
        Words {
            high: self.sign * 0x8000_0000 + self.characteristic * 0x100_0000 + upper,
            low: (self.fraction % 0x1_0000_0000) as u32,
        }
    }
}

// Text that grows: bytes in an array, and how many of them are in use.
ghost use Rattle.std.specs.Prelude.{◌≡◌, ◌≤◌};
ghost use Rattle.std.specs.Prelude.{length as count};

use crate::digit::hex_digit;

// Kept: bytes and length, and no `ArrayVec`, as `Holds` speaks of the bytes past the length.
#[derive(Clone, Copy)]
pub struct Text<const N: usize> {
    pub bytes: [u8; N],
    pub length: usize,
    pub ghost within: { length ≤ N },
    pub ghost size: { count bytes ≡ N },
}

impl<const N: usize> Text<N> {
    ghost use Rattle.std.specs.Prelude.{[], ◌∷◌, ◌+◌, ◌<◌, length};
    ghost use Rattle.listing.specs.Digits.{decimal, hexadecimal};
    ghost use Rattle.listing.specs.Text.{text_of, Appended};

    pub(crate) fn new() -> Self
        ensures { (text_of result ≡ []) × (result.length ≡ 0) }
    {
        Text {
            bytes: [0; N],
            length: 0,
        }
    }

    pub fn as_bytes(&self) -> &[u8]
        ensures { result.now ≡ text_of self.now }
    {
        &self.bytes[..self.length]
    }

    pub(crate) fn push(&mut self, b: u8)
        requires { self.old.length < N }
        ensures { Appended self.old self.new (b ∷ []) }
    {
        self.bytes[self.length] = b;
        self.length += 1;
    }

    pub(crate) fn push_bytes(&mut self, s: &[u8])
        requires { self.old.length + length s.now ≤ N }
        ensures { Appended self.old self.new s.now }
    {
        for b in s {
            self.push(*b);
        }
    }

    // A decimal has at most 20 digits.
    pub(crate) fn push_decimal(&mut self, n: u64)
        requires { self.old.length + 20 ≤ N }
        ensures appended { Appended self.old self.new (decimal n) }
        ensures length_bound { self.new.length ≤ self.old.length + 20 }
    {
        let mut digits = [0; 20];
        let k = io::decimal(n, &mut digits);
        self.push_bytes(&digits[..k]);
    }

    pub(crate) fn push_word(&mut self, w: u32)
        requires { self.old.length + 8 ≤ N }
        ensures { Appended self.old self.new (hexadecimal 8 w) }
    {
        for i in 0..8u32 {
            self.push(hex_digit((w >> (28 - 4 * i)) % 16));
        }
    }
}

// The list for some halfwords of memory.
ghost use Rattle.std.specs.Prelude.{◌≡◌, cond};
ghost use Rattle.protection.specs.Form.{is_protected, with_mark};
ghost use Rattle.protection.specs.Bits.{bit_form, bitwise};

use crate::bit::{bit, with_bit};

// The length of the list for so many halfwords.
pub fn cover(memory: usize) -> usize
    ensures { result ≡ bit_form.cover_of memory }
{
    memory / 8 + (memory % 8 + 7) / 8
}

// The byte that has the bit of an address.
pub fn byte_of(a: usize) -> usize
    ensures { result ≡ bit_form.byte_of a }
{
    a / 8
}

// Whether the halfword at an address is protected. One that the list does not have is not.
pub fn is_protected(list: &[u8], a: usize) -> bool
    ensures { result ≡ is_protected (bitwise list.now) a }
{
    let i = byte_of(a);
    if list.len() <= i {
        return false;
    }
    bit(list[i], (a % 8) as u32) == 1
}

// Marks an address as protected or not. Its byte's other bits stay, and where the list does not have the
// byte nothing is written.
#[tactic(auto, unfolding(crate::specs::Form::with_mark))]
pub fn mark(list: &mut [u8], a: usize, v: bool)
    ensures { bitwise list.new ≡ with_mark a (cond v 1 0) (bitwise list.old) }
{
    let i = byte_of(a);
    if list.len() <= i {
        return;
    }
    list[i] = with_bit(list[i], (a % 8) as u32, v);
}

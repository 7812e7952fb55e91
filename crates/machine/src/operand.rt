// Operands: registers, pairs and storage.
ghost use Rattle.std.specs.Prelude.{◌≡◌, ◌+◌, ◌≤◌, true, length};
ghost use Rattle.hexfloat.specs.Word.{short_words};
ghost use Rattle.machine.specs.Operand.{float_at, float_pair, word_at, long_at, float_operand, storage_operand, second_operand};
ghost use Rattle.orders.specs.Order.{halfwords, span_of};
ghost use Rattle.machine.specs.Check.{present};

use hexfloat::{Width, Words};
use orders::{LegalOrder, Place, general_at};

// Kept: a `requires`, here and below. A type for r would be taken apart at once, to index by it.
pub fn float_at(float: &[u32; 8], r: u32) -> u32
    requires { r ≤ 7 }
    ensures { result ≡ float_at float.now r }
{
    float[r as usize]
}

// Registers r and (r + 1) mod 8.
pub fn float_pair(float: &[u32; 8], r: u32) -> Words
    requires { r ≤ 7 }
    ensures { result ≡ float_pair float.now r }
{
    Words {
        high: float_at(float, r),
        low: float_at(float, (r + 1) % 8),
    }
}

// Two halfwords, the left one high.
// Kept: put together here and taken apart in `put_word`, each once; an array of two would be made to be taken apart.
pub fn word_at(memory: &[u16], at: usize) -> u32
    requires { at + 2 ≤ length memory.now }
    ensures { result ≡ word_at memory.now at }
{
    u32::from(memory[at]) * 65536 + u32::from(memory[at + 1])
}

pub fn long_at(memory: &[u16], at: usize) -> Words
    requires { at + 4 ≤ length memory.now }
    ensures { result ≡ long_at memory.now at }
{
    Words {
        high: word_at(memory, at),
        low: word_at(memory, at + 2),
    }
}

// A short operand: its word, and 0 where a long one has its second word.
fn short(w: u32) -> Words
    ensures { result ≡ short_words w }
{
    Words { high: w, low: 0 }
}

#[tactic(auto, unfolding(crate::specs::Operand::float_operand))]
pub fn float_operand(width: Width, float: &[u32; 8], r: u32) -> Words
    requires { r ≤ 7 }
    ensures { result ≡ float_operand width float.now r }
{
    match width {
        Width::Short => short(float_at(float, r)),
        Width::Long => float_pair(float, r),
    }
}

#[tactic(auto, unfolding(crate::specs::Operand::storage_operand))]
fn storage_operand(width: Width, memory: &[u16], at: usize) -> Words
    requires { at + halfwords width ≤ length memory.now }
    ensures { result ≡ storage_operand width memory.now at }
{
    match width {
        Width::Short => short(word_at(memory, at)),
        Width::Long => long_at(memory, at),
    }
}

// The one place where an order's second operand is fetched; S is at `at`.
pub fn second_operand(
    l: LegalOrder,
    float: &[u32; 8],
    general: &[u32; 16],
    selector: u32,
    memory: &[u16],
    at: u32,
) -> Words
    requires { present (span_of l.operation) at (length memory.now) ≡ true }
    ensures { result ≡ second_operand l.operation.place l.operation.width l.order float.now general.now selector memory.now at }
{
    let width = l.operation.width;
    let r = l.order.r2 as u32;
    match l.operation.place {
        Place::Nowhere => short(0),
        Place::FloatRegister => float_operand(width, float, r),
        Place::GeneralRegister => short(general_at(general, selector, r)),
        Place::Storage => storage_operand(width, memory, at as usize),
    }
}

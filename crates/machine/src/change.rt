// What a step or a back step overwrites.
ghost use Rattle.std.specs.Prelude.{◌≡◌, ◌+◌, ◌≤◌, true, length};
ghost use Rattle.protection.specs.Bits.{bitwise};
ghost use Rattle.machine.specs.Machine.{registers};
ghost use Rattle.machine.specs.Change.{
  placed,
  registered,
  guarded,
  old_of,
  float_after,
  general_after,
  put_word,
  memory_after,
  registers_after,
  float_change,
  storage_change,
};

use crate::operand::word_at;
use crate::state::{Registers, Status};
use crate::verdict::Effect;
use hexfloat::{Width, Words};
use orders::{general_at, general_cell};

// What is overwritten, and with what: a float register, a float pair, a general register, two or
// four halfwords.
// Kept: a case for each kind of a record, `Nothing` and both widths among them, as in `encoded_as` and `change_from`.
#[derive(Clone, Copy)]
pub enum Change {
    Nothing,
    Float(u32, u32),
    Pair(u32, u32, u32),
    General(u32, u32),
    Two(u32, u32),
    Four(u32, u32, u32),
}

// Words into R r, or into pair r.
#[tactic(auto, unfolding(crate::specs::Change::float_change))]
pub fn float_change(width: Width, r: u32, a: Words) -> Change
    ensures { result ≡ float_change width r a }
{
    match width {
        Width::Short => Change::Float(r, a.high),
        Width::Long => Change::Pair(r, a.high, a.low),
    }
}

// Words into S.
#[tactic(auto, unfolding(crate::specs::Change::storage_change))]
pub fn storage_change(width: Width, at: u32, a: Words) -> Change
    ensures { result ≡ storage_change width at a }
{
    match width {
        Width::Short => Change::Two(at, a.high),
        Width::Long => Change::Four(at, a.high, a.low),
    }
}

// Whether the halfwords of a change are there.
#[tactic(auto, unfolding(crate::specs::Change::placed))]
pub fn is_placed(ch: Change, memory: usize) -> bool
    ensures { result ≡ placed ch memory }
{
    match ch {
        Change::Nothing | Change::Float(..) | Change::Pair(..) | Change::General(..) => true,
        Change::Two(at, _) => at as usize + 2 <= memory,
        Change::Four(at, _, _) => at as usize + 4 <= memory,
    }
}

// Whether a change would store to a protected halfword.
#[tactic(auto, unfolding(crate::specs::Change::guarded))]
pub fn is_guarded(protect: &[u8], ch: Change) -> bool
    ensures { result ≡ guarded (bitwise protect.now) ch }
{
    match ch {
        Change::Nothing | Change::Float(..) | Change::Pair(..) | Change::General(..) => false,
        Change::Two(at, _) => crate::check::any_protected(protect, at, 2),
        Change::Four(at, _, _) => crate::check::any_protected(protect, at, 4),
    }
}

// The same places with their present contents.
#[tactic(auto, unfolding(crate::specs::Change::old_of))]
pub fn old(
    float: &[u32; 8],
    general: &[u32; 16],
    status: Status,
    memory: &[u16],
    ch: Change,
) -> Change
    requires { (registered ch ≡ true) × (placed ch (length memory.now) ≡ true) }
    ensures { result ≡ old_of (registers float.now general.now status) memory.now ch }
{
    match ch {
        Change::Nothing => Change::Nothing,
        Change::Float(r, w) => Change::Float(r, float[r as usize]),
        Change::Pair(r, hi, lo) => {
            Change::Pair(r, float[r as usize], float[(r as usize + 1) % 8])
        }
        Change::General(r, w) => Change::General(r, general_at(general, status.selector as u32, r)),
        Change::Two(at, w) => Change::Two(at, word_at(memory, at as usize)),
        Change::Four(at, hi, lo) => {
            let a = crate::operand::long_at(memory, at as usize);
            Change::Four(at, a.high, a.low)
        }
    }
}

// A change of registers, in place; a general register is of the set that the selector names.
#[tactic(auto, unfolding(crate::specs::Change::float_after, crate::specs::Change::general_after))]
pub fn put(ch: Change, float: &mut [u32; 8], general: &mut [u32; 16], selector: u32)
    requires { (registered ch ≡ true) × (selector ≤ 1) }
    ensures { (float.new ≡ float_after ch float.old) × (general.new ≡ general_after ch general.old selector) }
{
    match ch {
        Change::Nothing | Change::Two(..) | Change::Four(..) => {}
        Change::Float(r, w) => {
            float[r as usize] = w;
        }
        Change::Pair(r, hi, lo) => {
            float[r as usize] = hi;
            float[(r as usize + 1) % 8] = lo;
        }
        Change::General(r, w) => {
            general[general_cell(selector, r)] = w;
        }
    }
}

pub fn registers_after(e: Effect, g: Registers) -> Registers
    requires { (registered e.change ≡ true) × (e.status.selector ≤ 1) }
    ensures { result ≡ registers_after e g }
{
    let ch = e.change;
    let status = e.status;
    let mut float = g.float;
    let mut general = g.general;
    put(ch, &mut float, &mut general, status.selector as u32);
    Registers {
        float,
        general,
        status,
    }
}

fn put_word(memory: &mut [u16], at: usize, w: u32)
    requires { at + 2 ≤ length memory.old }
    ensures { memory.new ≡ put_word at w memory.old }
{
    memory[at] = (w / 65536 % 65536) as u16;
    memory[at + 1] = (w % 65536) as u16;
}

#[tactic(auto, unfolding(crate::specs::Change::memory_after))]
pub fn store(ch: Change, memory: &mut [u16])
    requires { placed ch (length memory.old) ≡ true }
    ensures { memory.new ≡ memory_after ch memory.old }
{
    match ch {
        Change::Nothing | Change::Float(..) | Change::Pair(..) | Change::General(..) => {}
        Change::Two(at, w) => put_word(memory, at as usize, w),
        Change::Four(at, hi, lo) => {
            let i = at as usize;
            put_word(memory, i, hi);
            put_word(memory, i + 2, lo);
        }
    }
}

// Checks 1, 2, 3, 6 and 7.
ghost use Rattle.std.specs.Prelude.{◌≡◌, ◌≤◌};
ghost use Rattle.machine.specs.Check.{
  deck_sized,
  buffers_sized,
  state_formed,
  present,
  any_protected,
};
ghost use Rattle.protection.specs.Bits.{bitwise};
ghost use Rattle.machine.specs.Status.{condition_formed, status_formed};

use crate::state::Status;
use protection::{cover, is_protected};

// Check 1.
#[tactic(auto, unfolding(crate::specs::Check::deck_sized))]
pub fn deck_sized(deck: usize) -> bool
    ensures { result ≡ deck_sized deck }
{
    if deck % 4 != 0 {
        return false;
    }
    deck <= 16384
}

// Check 2.
#[tactic(auto, unfolding(crate::specs::Check::buffers_sized, protection::specs::Form::covers))]
pub fn buffers_sized(protect: &[u8], memory: usize, journal: usize) -> bool
    ensures { result ≡ buffers_sized (bitwise protect.now) memory journal }
{
    if 32768 < memory {
        return false;
    }
    if 16384 < journal {
        return false;
    }
    protect.len() == cover(memory)
}

#[tactic(auto, unfolding(crate::specs::Status::condition_formed))]
pub fn condition_formed(condition: u32) -> bool
    ensures { result ≡ condition_formed condition }
{
    matches!(condition, 0 | 1 | 3)
}

#[tactic(auto, unfolding(crate::specs::Status::status_formed))]
fn status_formed(s: Status) -> bool
    ensures { result ≡ status_formed s }
{
    if !condition_formed(s.condition) {
        return false;
    }
    if 1 < s.mask {
        return false;
    }
    s.selector <= 1
}

// Check 3, of both seats.
#[tactic(auto, unfolding(crate::specs::Check::state_formed))]
pub fn state_formed(s: Status, other: Status, used: u32, journal: usize) -> bool
    ensures { result ≡ state_formed s other used journal }
{
    if !status_formed(s) {
        return false;
    }
    if !status_formed(other) {
        return false;
    }
    used as usize <= journal / 4
}

// Check 6 for `span` halfwords from `at`.
#[tactic(auto, unfolding(crate::specs::Check::present))]
pub fn is_present(span: u32, at: u32, memory: usize) -> bool
    requires { span ≤ 4 }
    ensures { result ≡ present span at memory }
{
    if span == 0 {
        return true;
    }
    let end = at as usize + span as usize;
    end <= memory
}

// Check 7 for `n` halfwords from `at`.
// Kept: a loop. By `any` every step took a tenth longer, more than the 1.2 of the tuned implementation that is the bar.
pub fn any_protected(protect: &[u8], at: u32, n: u32) -> bool
    ensures { result ≡ any_protected (bitwise protect.now) at n }
{
    let start = at as usize;
    for a in start..start + n as usize {
        if is_protected(protect, a) {
            return true;
        }
    }
    false
}

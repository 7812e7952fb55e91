// JC and JN.
ghost use Rattle.std.specs.Prelude.{◌≡◌, ◌+◌, ◌<◌};
ghost use Rattle.hexfloat.specs.Answer.{gives};
ghost use Rattle.machine.specs.Jump.{jumps, jumped_to, jumped, one_less, counted_down};
ghost use Rattle.machine.specs.Says.{says};

use crate::change::Change;
use crate::state::{Onward, Status};
use crate::verdict::{Effect, Verdict};

// Whether the bit for the condition code is set among JC's three.
#[tactic(auto, unfolding(crate::specs::Jump::jumps))]
fn is_set(bits: u32, condition: u32) -> bool
    ensures { result ≡ jumps bits condition }
{
    if condition == 0 {
        return bits / 4 % 2 == 1;
    }
    if condition == 1 {
        return bits / 2 % 2 == 1;
    }
    bits % 2 == 1
}

// To order `at`, or on by one.
fn moved(s: Onward, jump: bool, at: u16) -> Status
    ensures { result ≡ jumped_to s.status jump at }
{
    let now = s.status;
    let pointer = if jump { at } else { now.pointer + 1 };
    Status { pointer, ..now }
}

#[tactic(auto, unfolding(crate::specs::Jump::jumped))]
pub fn jump(s: Onward, bits: u32, at: u16) -> Verdict
    ensures { says result ≡ gives (jumped s.status bits at) }
{
    Ok(Effect {
        change: Change::Nothing,
        status: moved(s, is_set(bits, s.status.condition), at),
    })
}

// One less, 0 becoming FFFFFFFF.
fn one_less(n: u32) -> u32
    ensures { result ≡ one_less n }
{
    n.wrapping_sub(1)
}

// JN, where G r holds w.
#[tactic(auto, unfolding(crate::specs::Jump::counted_down))]
pub fn count_down(s: Onward, r: u32, w: u32, at: u16) -> Verdict
    ensures { says result ≡ gives (counted_down s.status r w at) }
{
    let less = one_less(w);
    Ok(Effect {
        change: Change::General(r, less),
        status: moved(s, less != 0, at),
    })
}

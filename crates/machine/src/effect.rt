// What a legal order does whose storage operand is there: one arm a verb, over the width of its
// operands.
ghost use Rattle.std.specs.Prelude.{◌≡◌, ◌+◌, true, length};
ghost use Rattle.orders.specs.Order.{span_of};
ghost use Rattle.machine.specs.Check.{present};
ghost use Rattle.hexfloat.specs.Answer.{gives, mapped};
ghost use Rattle.hexfloat.specs.Convert.{to_fixed};
ghost use Rattle.hexfloat.specs.Result.{says_result};
ghost use Rattle.machine.specs.Effect.{
  next_effect,
  kept_condition,
  loaded,
  complemented,
  compared_with,
  fixed_into,
  result_into,
  divided,
  summed_into,
  product_width,
  multiplied,
  loaded_general,
  masked,
  selected,
  performed,
  effect_of,
};
ghost use Rattle.machine.specs.Journal.{effect_from};
ghost use Rattle.machine.specs.Machine.{registers};
ghost use Rattle.machine.specs.Says.{says};
ghost use Rattle.machine.specs.Status.{status};

use crate::change::{Change, float_change, storage_change};
use crate::jump::{count_down, jump};
use crate::operand::{float_operand, second_operand};
use crate::state::{Onward, Status};
use crate::stop::Stop;
use crate::verdict::{Effect, Verdict};
use hexfloat::{Fault, Sense, Width, Words};
use orders::{LegalOrder, Verb, general_at};

// A taken step of this change, condition code, mask and selector: the pointer moves on by one.
fn next(s: Onward, change: Change, condition: u32, mask: u32, selector: u16) -> Verdict
    ensures { says result ≡ gives (effect_from (status condition mask (s.status.pointer + 1) selector) change) }
{
    let status = Status {
        condition,
        mask,
        pointer: s.status.pointer + 1,
        selector,
    };
    Ok(Effect { change, status })
}

// Mask and selector stay.
fn granted(s: Onward, change: Change, condition: u8) -> Verdict
    ensures { says result ≡ gives (next_effect s.status change condition) }
{
    next(
        s,
        change,
        condition as u32,
        s.status.mask,
        s.status.selector,
    )
}

// The condition code stays as well.
fn granted_as_is(s: Onward, change: Change) -> Verdict
    ensures { says result ≡ gives (kept_condition s.status change) }
{
    next(
        s,
        change,
        s.status.condition,
        s.status.mask,
        s.status.selector,
    )
}

fn load(width: Width, s: Onward, r: u32, b: Words) -> Verdict
    ensures { says result ≡ gives (loaded width s.status r b) }
{
    granted(s, float_change(width, r, b), hexfloat::condition(width, b))
}

fn complement(b: Words) -> Words
    ensures { result ≡ complemented b }
{
    Words {
        high: hexfloat::complement(b.high),
        low: b.low,
    }
}

fn compare(width: Width, s: Onward, a: Words, b: Words) -> Verdict
    ensures { says result ≡ gives (compared_with width s.status a b) }
{
    granted(s, Change::Nothing, hexfloat::compare(width, a, b))
}

// CVFX.
fn fix(s: Onward, r: u32, w: u32) -> Verdict
    ensures { says result ≡ mapped (fixed_into s.status r) (to_fixed w) }
{
    let c = hexfloat::to_fixed(w).ok_or(Stop::ConvertOverflow)?;
    granted(s, Change::General(r, c.word), c.condition)
}

fn divide(width: Width, s: Onward, r: u32, a: Words, b: Words) -> Verdict
    ensures { says result ≡ divided width s.status r a b }
{
    let q = hexfloat::divide(width, s.status.mask == 1, a, b);
    place_result(false, width, s, r, q)
}

fn sum(sense: Sense, width: Width, s: Onward, r: u32, a: Words, b: Words) -> Verdict
    ensures { says result ≡ summed_into sense width s.status r a b }
{
    let q = hexfloat::sum(sense, width, s.status.mask == 1, a, b);
    place_result(true, width, s, r, q)
}

fn multiply(width: Width, s: Onward, r: u32, a: Words, b: Words) -> Verdict
    ensures { says result ≡ multiplied width s.status r a b }
{
    let filled = product_width(width, r);
    let p = hexfloat::multiply(width, filled, s.status.mask == 1, a, b);
    place_result(false, filled, s, r, p)
}

// How wide a product is that goes to r: a short one fills a pair from an even register on.
pub fn product_width(width: Width, r: u32) -> Width
    ensures { result ≡ product_width width r }
{
    match width {
        Width::Short => {
            if r % 2 == 0 {
                return Width::Long;
            }
            Width::Short
        }
        Width::Long => Width::Long,
    }
}

// A result of arithmetic, which sets the condition code or leaves it.
// Kept: `sets` as a flag, as in `result_into`.
fn place_result(sets: bool, width: Width, s: Onward, r: u32, res: Result<Words, Fault>) -> Verdict
    ensures { says result ≡ mapped (result_into sets width s.status r) (says_result res) }
{
    let a = res?;
    let change = float_change(width, r, a);
    if sets {
        return granted(s, change, hexfloat::condition(width, a));
    }
    granted_as_is(s, change)
}

fn load_general(s: Onward, r: u32, w: u32) -> Verdict
    ensures { says result ≡ gives (loaded_general s.status r w) }
{
    granted(s, Change::General(r, w), hexfloat::general_condition(w))
}

// UM.
fn set_mask(s: Onward, mask: u16) -> Verdict
    ensures { says result ≡ gives (masked s.status mask) }
{
    next(
        s,
        Change::Nothing,
        s.status.condition,
        mask as u32,
        s.status.selector,
    )
}

// SET.
fn select(s: Onward, selector: u16) -> Verdict
    ensures { says result ≡ gives (selected s.status selector) }
{
    let now = s.status;
    next(s, Change::Nothing, now.condition, now.mask, selector)
}

// An order whose second operand is b; S, if it has one, is at `at`.
#[tactic(auto, unfolding(crate::specs::Effect::performed))]
fn perform(
    l: LegalOrder,
    float: &[u32; 8],
    general: &[u32; 16],
    s: Onward,
    at: u32,
    b: Words,
) -> Verdict
    ensures { says result ≡ performed l.operation.verb l.operation.width l.order (registers float.now general.now s.status) at b }
{
    let o = l.order;
    let width = l.operation.width;
    let r = o.r1 as u32;
    let selector = s.status.selector as u32;
    match l.operation.verb {
        Verb::Load => load(width, s, r, b),
        Verb::Complement => load(width, s, r, complement(b)),
        Verb::Compare => compare(width, s, float_operand(width, float, r), b),
        Verb::Fix => fix(s, r, b.high),
        Verb::Float => {
            let c = hexfloat::to_float(b.high);
            granted(s, Change::Float(r, c.word), c.condition)
        }
        Verb::Divide => divide(width, s, r, float_operand(width, float, r), b),
        Verb::Store => {
            let a = float_operand(width, float, r);
            granted_as_is(s, storage_change(width, at, a))
        }
        Verb::LoadGeneral => load_general(s, r, b.high),
        Verb::StoreGeneral => {
            let w = general_at(general, selector, r);
            granted_as_is(s, Change::Two(at, w))
        }
        Verb::SetMask => set_mask(s, o.r2),
        Verb::Jump => jump(s, r, o.at),
        Verb::CountDown => count_down(s, r, general_at(general, selector, r), o.at),
        Verb::Halt => Err(Stop::Halted),
        Verb::Sum(sense) => {
            let a = float_operand(width, float, r);
            sum(sense, width, s, r, a, b)
        }
        Verb::Multiply => multiply(width, s, r, float_operand(width, float, r), b),
        Verb::Select => select(s, o.r2),
    }
}

// Checks 8 to 11, or the effect of an order whose S, if it has one, is at `at`. All operands are read
// here, before anything is written.
#[tactic(auto, unfolding(crate::specs::Effect::effect_of))]
pub fn effect(
    l: LegalOrder,
    float: &[u32; 8],
    general: &[u32; 16],
    s: Onward,
    memory: &[u16],
    at: u32,
) -> Verdict
    requires { present (span_of l.operation) at (length memory.now) ≡ true }
    ensures { says result ≡ effect_of l.operation l.order (registers float.now general.now s.status) memory.now at }
{
    let b = second_operand(l, float, general, s.status.selector as u32, memory, at);
    perform(l, float, general, s, at, b)
}

// Alignment of two numbers, as a sum and a long compare begin (8.9; 8.11, note).
ghost use Rattle.std.specs.Prelude.{◌≡◌, ◌<◌, ◌≤◌, ◌^◌};
ghost use Rattle.hexfloat.specs.Align.{common_characteristic, aligned};
ghost use Rattle.hexfloat.specs.Operand.{Alignable, prealigned};

use crate::word::Parts;

// Two fractions with their guard digits, at one characteristic.
#[derive(Clone, Copy)]
pub struct Prealigned {
    pub characteristic: u32,
    pub first: u64,
    pub second: u64,
}

pub fn prealign(guards: u32, x: Parts, y: Parts) -> Prealigned
    requires { Alignable guards x y }
    ensures { result ≡ prealigned guards x y }
{
    let c = common_characteristic(x, y);
    Prealigned {
        characteristic: c,
        first: align(guards, c, x),
        second: align(guards, c, y),
    }
}

#[tactic(auto, unfolding(crate::specs::Align::common_characteristic))]
fn common_characteristic(x: Parts, y: Parts) -> u32
    ensures { result ≡ common_characteristic x y }
{
    x.characteristic.max(y.characteristic)
}

// The fraction with its guard digits, moved right to the characteristic c. What is moved by 16
// digits or more is gone.
fn align(guards: u32, c: u32, p: Parts) -> u64
    requires { (guards ≤ 2) × (p.characteristic ≤ c) × (p.fraction < 16 ^ 14) }
    ensures { result ≡ aligned guards c p }
{
    let shift = c - p.characteristic;
    if 15 < shift {
        return 0;
    }
    (p.fraction << (4 * guards)) >> (4 * shift)
}

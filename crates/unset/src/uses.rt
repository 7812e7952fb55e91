// The registers that an order reads and those that it writes, where the selector is s, as sets.
ghost use Rattle.std.specs.Prelude.{◌≡◌, ◌≤◌};
ghost use Rattle.machine.specs.Uses.{index_read, second_read, named, written_by};
ghost use Rattle.unset.specs.Bits.{bits_of, read_bits};

use crate::bits::{float_bits, general_bit};
use hexfloat::Width;
use orders::{LegalOrder, Place, Role};

// The index register that r2 names. Register 0 cannot hold an index.
#[tactic(auto, unfolding(crate::specs::Bits::bits_of, machine::specs::Uses::index_read))]
fn index_read(s: u32, r: u16) -> u32
    requires { (s ≤ 1) × (r ≤ 7) }
    ensures { result ≡ bits_of (index_read s r) }
{
    if r == 0 {
        return 0;
    }
    general_bit(s, r)
}

#[tactic(auto, unfolding(crate::specs::Bits::bits_of, machine::specs::Uses::second_read))]
fn second_read(l: LegalOrder, s: u32) -> u32
    requires { s ≤ 1 }
    ensures { result ≡ bits_of (second_read l.operation.place l.operation.width l.order s) }
{
    let r = l.order.r2;
    match l.operation.place {
        Place::Nowhere => 0,
        Place::FloatRegister => float_bits(l.operation.width, r),
        Place::GeneralRegister => general_bit(s, r),
        Place::Storage => index_read(s, r),
    }
}

// What r1 names by its role, for operands of that width.
#[tactic(auto, unfolding(crate::specs::Bits::bits_of, machine::specs::Uses::floats, machine::specs::Uses::named))]
fn named_bits(role: Role, width: Width, r: u16, s: u32) -> u32
    requires { (s ≤ 1) × (r ≤ 7) }
    ensures { result ≡ bits_of (named role width r s) }
{
    match role {
        Role::Nothing => 0,
        Role::Operand => float_bits(width, r),
        Role::Product => float_bits(machine::product_width(width, r as u32), r),
        Role::Float => float_bits(Width::Short, r),
        Role::General => general_bit(s, r),
    }
}

pub fn read(l: LegalOrder, s: u32) -> u32
    requires { s ≤ 1 }
    ensures { result ≡ read_bits l.operation l.order s }
{
    let op = l.operation;
    named_bits(op.verb.role_read(), op.width, l.order.r1, s) | second_read(l, s)
}

pub fn written(l: LegalOrder, s: u32) -> u32
    requires { s ≤ 1 }
    ensures { result ≡ bits_of (written_by l.operation l.order s) }
{
    let op = l.operation;
    named_bits(op.verb.role_written(), op.width, l.order.r1, s)
}

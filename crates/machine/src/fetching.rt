// The operands of an order, for tools that ask what it would read.
ghost use Rattle.std.specs.Prelude.{◌≡◌};
ghost use Rattle.orders.specs.Address.{address_of};
ghost use Rattle.machine.specs.Fetch.{operands_read, says_fetched};

use crate::check::is_present;
use crate::operand::{float_operand, second_operand};
use crate::stop::Stop;
use hexfloat::Words;
use orders::{Operation, Order, legal};

// R r1 or pair r1, and the second operand, with the order's row.
#[derive(Clone, Copy)]
pub struct Operands {
    pub operation: Operation,
    pub first: Words,
    pub second: Words,
}

// Checks 5 and 6 of the order, then its operands.
pub fn fetch(
    o: Order,
    float: &[u32; 8],
    general: &[u32; 16],
    selector: u32,
    memory: &[u16],
) -> Result<Operands, Stop>
    ensures { says_fetched result ≡ operands_read o float.now general.now selector memory.now (address_of o general.now selector) }
{
    let Some(l) = legal(o) else {
        return Err(Stop::IllegalOrder);
    };
    let operation = l.operation;
    let at = l.order.address(general, selector);
    if !is_present(operation.span(), at, memory.len()) {
        return Err(Stop::AbsentStorage);
    }
    let first = float_operand(operation.width, float, l.order.r1 as u32);
    let second = second_operand(l, float, general, selector, memory, at);
    Ok(Operands {
        operation,
        first,
        second,
    })
}

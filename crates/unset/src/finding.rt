// The lowest order that reads a register which some path reaches it without having written.
ghost use Rattle.std.specs.Prelude.{◌/◌, ◌^◌, ◌<◌, ◌≤◌, length};
ghost use Rattle.hexfloat.specs.Answer.{gives};
ghost use Rattle.unset.specs.Answer.{Answers, says_found, says_unset};
ghost use Rattle.unset.specs.Finding.{SaysLegal, SaysAllLegal, LowestBit, UnsetBits, Searched};

use crate::answer::{Refusal, Unset, register_of};
use crate::search::{PLACES, Search, explore};
use crate::uses::read;
use arrayvec::ArrayVec;

// Check 5.
fn is_legal(deck: &[u16], p: u16) -> bool
    ensures { SaysLegal deck.now p result }
{
    orders::legal(orders::order_at(deck, p)).is_some()
}

// Check 5 of every order, reached or not.
fn all_legal(deck: &[u16]) -> bool
    requires { length deck.now ≤ 16384 }
    ensures { SaysAllLegal deck.now result }
{
    let orders = (deck.len() / 4) as u16;
    (0..orders).all(|p| is_legal(deck, p))
}

// The registers that order p reads and that reach it unwritten, with either selector.
fn unset_bits(deck: &[u16], unwritten: &[u32; PLACES], p: u32) -> u32
    requires { Searched deck.now unwritten.now × (p < length deck.now / 4) }
    ensures { UnsetBits deck.now unwritten.now p result }
{
    let Some(l) = orders::legal(orders::order_at(deck, p as u16)) else {
        return 0;
    };
    let place = p as usize * 2;
    read(l, 0) & unwritten[place] | read(l, 1) & unwritten[place + 1]
}

fn lowest_bit(bits: u32) -> u32
    requires { (0 < bits) × (bits < 2 ^ 24) }
    ensures { LowestBit bits result }
{
    bits.trailing_zeros()
}

// The lowest order with such a register, and the lowest such register.
fn lowest(deck: &[u16], unwritten: &[u32; PLACES]) -> Option<Unset>
    requires { Searched deck.now unwritten.now }
    ensures { Answers deck.now (gives (says_unset result)) }
{
    let orders = (deck.len() / 4) as u32;
    for order in 0..orders {
        let bits = unset_bits(deck, unwritten, order);
        if bits != 0 {
            let register = register_of(lowest_bit(bits));
            return Some(Unset { order, register });
        }
    }
    None
}

// The lowest order that reads a register which some path from order 0 reaches it without having written, and
// the register.
pub fn first_unset(deck: &[u16]) -> Result<Option<Unset>, Refusal>
    ensures { Answers deck.now (says_found result) }
{
    if !machine::deck_sized(deck.len()) {
        return Err(Refusal::DeckSize);
    }
    if !all_legal(deck) {
        return Err(Refusal::IllegalOrder);
    }
    let mut search = Search {
        unwritten: [0; PLACES],
        waiting: [false; PLACES],
        stack: ArrayVec::new(),
    };
    explore(deck, &mut search);
    Ok(lowest(deck, &search.unwritten))
}

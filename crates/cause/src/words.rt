// The words that the arithmetic of an order reads.
ghost use Rattle.std.specs.Prelude.{◌≡◌};
ghost use Rattle.hexfloat.specs.Answer.{gives};
ghost use Rattle.cause.specs.Words.{both_named, arithmetic_operands, words_named, words_read};

use crate::naming::Named;
use hexfloat::{Width, Words};
use machine::Operands;
use orders::Verb;

// Both operands, the first one's words before the second's.
fn both(width: Width, a: Words, b: Words) -> Named
    ensures { result ≡ both_named width a b }
{
    match width {
        Width::Short => Named::TwoWords(a.high, b.high),
        Width::Long => Named::FourWords(a.high, a.low, b.high, b.low),
    }
}

// How many operands the arithmetic with stops from 8 to 11 reads.
fn arithmetic_operands(verb: Verb) -> u32
    ensures { result ≡ arithmetic_operands verb }
{
    match verb {
        Verb::Fix => 1,
        Verb::Divide | Verb::Sum(_) | Verb::Multiply => 2,
        _ => 0,
    }
}

// So many of the operands a and b; one is the second.
fn words_named(count: u32, width: Width, a: Words, b: Words) -> Named
    ensures { result ≡ words_named count width a b }
{
    if count == 0 {
        return Named::Nothing;
    }
    if count == 1 {
        return Named::OneWord(b.high);
    }
    both(width, a, b)
}

// The words of the operands that were fetched for an order.
#[tactic(auto, unfolding(crate::specs::Words::words_read))]
pub fn words_read(q: Operands) -> Named
    ensures { result ≡ words_read (gives q) }
{
    let op = q.operation;
    words_named(arithmetic_operands(op.verb), op.width, q.first, q.second)
}

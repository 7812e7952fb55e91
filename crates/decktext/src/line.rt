// One line: how many values it has, what each must be, and what the line gives.
ghost use Rattle.std.specs.Prelude.{◌≡◌, cond, ◌<◌, eqb};
ghost use Rattle.hexfloat.specs.Answer.{gives, provided, and_then};
ghost use Rattle.decktext.specs.Text.{same};
ghost use Rattle.decktext.specs.Value.{says_value, mnemonic_code, decimal_of, protect_of, word_of};
ghost use Rattle.decktext.specs.Format.{legal};
ghost use Rattle.decktext.specs.Read.{Buffers, start as begun, headed, order_fits, halfword_fits, after_heading, buffered_with, progressed};
ghost use Rattle.decktext.specs.Walk.{wanted_of, halfword_as, given_of, says_judged, progress_of, Sized, value_count, value_as, in_place, judged_line};

use crate::fault::Fault;
use crate::given::{Given, Halfword};
use crate::mnemonic::mnemonic_code;
use crate::tables::Tables;
use crate::value::{decimal, protect, word};
use orders::Order;
use protection::byte_of;

#[derive(Clone, Copy)]
pub enum Wanted {
    Heading,
    Order,
    Storage,
    Halfword,
}

// What the lines so far gave, but for the buffers.
// Kept: that `count` is below 65,536 is a `requires` of some functions here; as a fact of the type `advance` would have
// to show it, which follows from the length of the text alone.
#[derive(Clone, Copy)]
pub struct Progress {
    pub wanted: Wanted,
    pub count: u32,
    pub least: u32,
}

#[derive(Clone, Copy)]
pub struct Sizes {
    pub cells: usize,
    pub memory: usize,
    pub protect: usize,
}

// Before the first line.
pub fn start() -> Progress
    ensures { (b : Buffers) → progress_of result b ≡ begun b }
{
    Progress {
        wanted: Wanted::Heading,
        count: 0,
        least: 0,
    }
}

// How many values a line of so many bytes has: none for a heading and for the empty line.
pub fn values_wanted(w: Wanted, bytes: usize) -> usize
    ensures { result ≡ value_count (wanted_of w) bytes }
{
    match w {
        Wanted::Heading | Wanted::Storage => 0,
        Wanted::Order => if bytes == 0 { 0 } else { 4 },
        Wanted::Halfword => 3,
    }
}

// Value i of a line; the last one alone ends the line.
#[tactic(auto, unfolding(crate::specs::Walk::value_as))]
pub fn value(w: Wanted, i: usize, ends: bool, v: &[u8], tables: &Tables) -> Option<u16>
    ensures { says_value result ≡ value_as (wanted_of w) i ends v.now }
{
    match w {
        Wanted::Heading | Wanted::Storage => None,
        Wanted::Order => in_place(i, ends, 3, order_value(i, v, tables)),
        Wanted::Halfword => in_place(i, ends, 2, halfword_value(i, v, tables)),
    }
}

fn order_value(i: usize, v: &[u8], tables: &Tables) -> Option<u16>
    ensures { says_value result ≡ cond (eqb i 0) (mnemonic_code v.now) (decimal_of v.now) }
{
    if i == 0 {
        mnemonic_code(v, tables)
    } else {
        decimal(v, tables)
    }
}

fn halfword_value(i: usize, v: &[u8], tables: &Tables) -> Option<u16>
    ensures { says_value result ≡ cond (eqb i 0) (decimal_of v.now) (cond (eqb i 1) (protect_of v.now) (word_of v.now)) }
{
    match i {
        0 => decimal(v, tables),
        1 => protect(v, tables),
        _ => word(v, tables),
    }
}

fn in_place(i: usize, ends: bool, last: usize, v: Option<u16>) -> Option<u16>
    ensures { says_value result ≡ in_place i ends last (says_value v) }
{
    if ends == (i == last) { v } else { None }
}

// What a line gives whose values are v.
pub fn judge(p: Progress, line: &[u8], v: [u16; 4], s: Sizes) -> Result<Given, Fault>
    requires { p.count < 65536 }
    ensures { (b : Buffers) → Sized b s → says_judged result ≡ judged_line (wanted_of p.wanted) (progress_of p b) line.now v }
{
    match p.wanted {
        Wanted::Heading => judge_heading(line, b"op r1 r2 at"),
        Wanted::Order => {
            if line.is_empty() {
                return Ok(Given::Parted);
            }
            judge_order(
                p,
                Order {
                    code: v[0],
                    r1: v[1],
                    r2: v[2],
                    at: v[3],
                },
                s,
            )
        }
        Wanted::Storage => judge_heading(line, b"at protect word"),
        Wanted::Halfword => judge_halfword(
            p,
            Halfword {
                at: v[0],
                protect: v[1],
                word: v[2],
            },
            s,
        ),
    }
}

fn judge_heading(line: &[u8], wanted: &[u8]) -> Result<Given, Fault>
    ensures { says_judged result ≡ provided (same line.now wanted.now) 16 (gives headed) }
{
    if line == wanted {
        Ok(Given::Headed)
    } else {
        Err(Fault::Malformed)
    }
}

fn judge_order(p: Progress, o: Order, s: Sizes) -> Result<Given, Fault>
    requires { p.count < 65536 }
    ensures { (b : Buffers) → Sized b s → says_judged result ≡ and_then (legal o) (order_fits (progress_of p b)) }
{
    if orders::legal(o).is_none() {
        return Err(Fault::Malformed);
    }
    if s.cells < p.count as usize * 4 + 4 {
        return Err(Fault::NoRoom);
    }
    Ok(Given::Ordered(o))
}

#[tactic(auto, unfolding(protection::specs::Form::holds))]
fn judge_halfword(p: Progress, h: Halfword, s: Sizes) -> Result<Given, Fault>
    ensures { (b : Buffers) → Sized b s → says_judged result ≡ halfword_fits (progress_of p b) (halfword_as h) }
{
    let at = h.at as u32;
    if at < p.least {
        return Err(Fault::Malformed);
    }
    let i = h.at as usize;
    if s.memory <= i || s.protect <= byte_of(i) {
        return Err(Fault::NoRoom);
    }
    Ok(Given::Stored(h))
}

#[tactic(auto, unfolding(crate::specs::Read::buffered_with, crate::specs::Read::progressed))]
pub fn advance(p: Progress, g: Given) -> Progress
    requires { p.count < 65536 }
    ensures { (b : Buffers) → progress_of result (buffered_with (given_of g) p.count b) ≡ progressed (given_of g) (progress_of p b) }
{
    match g {
        Given::Headed => Progress {
            wanted: after_heading(p.wanted),
            ..p
        },
        Given::Ordered(_) => Progress {
            wanted: Wanted::Order,
            count: p.count + 1,
            ..p
        },
        Given::Parted => Progress {
            wanted: Wanted::Storage,
            ..p
        },
        Given::Stored(h) => Progress {
            wanted: Wanted::Halfword,
            least: h.at as u32 + 1,
            ..p
        },
    }
}

fn after_heading(w: Wanted) -> Wanted
    ensures { wanted_of result ≡ after_heading (wanted_of w) }
{
    match w {
        Wanted::Heading | Wanted::Order => Wanted::Order,
        Wanted::Storage | Wanted::Halfword => Wanted::Halfword,
    }
}

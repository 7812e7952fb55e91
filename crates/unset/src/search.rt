// The search: for each order and selector, the registers that some path reaches it without having written.
// A deck has at most 4,096 orders, and each can be reached with two selectors: 8,192 places.
ghost use Rattle.std.specs.Prelude.{◌≡◌, ◌≤◌};
ghost use Rattle.unset.specs.Answer.{Checked};
ghost use Rattle.unset.specs.Bits.{without};
ghost use Rattle.unset.specs.Search.{arrived, reached, unexplored, Arriving, Stacked, Takeable, TakenUp, Explored};

use crate::path::{Point, index, selector_after};
use crate::uses::written;
use arrayvec::ArrayVec;

// All 24 registers: nothing is written where a path starts.
const ALL: u32 = 16777215;

pub const PLACES: usize = 8192;

// For each place the registers that reach it unwritten, and whether it waits to be taken up; the places that
// wait, on a stack.
// Kept: word and mark of a place in two arrays, since what comes after the search reads the words alone.
#[derive(Drop)]
pub struct Search {
    pub unwritten: [u32; PLACES],
    pub waiting: [bool; PLACES],
    pub stack: ArrayVec<u16, PLACES>,
}

// The bits that are not written.
#[tactic(auto, unfolding(crate::specs::Bits::without))]
fn unwritten_of(bits: u32, written: u32) -> u32
    ensures { result ≡ without bits written }
{
    (bits | written) ^ written
}

// Some registers arrive at a place unwritten. It waits to be taken up if it gains one.
#[tactic(auto, unfolding(crate::specs::Search::arrived, crate::specs::Search::pushed))]
fn arrive(search: &mut Search, place: usize, bits: u32)
    requires { Arriving search.old place }
    ensures { search.new ≡ arrived place bits search.old }
{
    let old = search.unwritten[place];
    let union = old | bits;
    if union == old {
        return;
    }
    search.unwritten[place] = union;
    if search.waiting[place] {
        return;
    }
    search.waiting[place] = true;
    search.stack.push(place as u16);
}

// The same at a point, in a deck of so many orders. A path ends past its end.
fn reach(search: &mut Search, orders: u32, x: Point, bits: u32)
    requires { Stacked orders search.old × (orders ≤ 4096) × (x.selector ≤ 1) }
    ensures { search.new ≡ reached orders x bits search.old }
{
    if x.order < orders {
        arrive(search, index(x), bits);
    }
}

// A place is taken up: what reaches it unwritten, less what its order writes, reaches the points after it.
fn take_up(deck: &[u16], search: &mut Search, place: usize)
    requires { Takeable deck.now search.old place }
    ensures { TakenUp deck.now place search.old search.new }
{
    let orders = (deck.len() / 4) as u32;
    let order = (place / 2) as u32;
    let selector = (place % 2) as u32;
    let Some(l) = orders::legal(orders::order_at(deck, order as u16)) else {
        return;
    };
    let verb = l.operation.verb;
    if verb.halts() {
        return;
    }
    let bits = unwritten_of(search.unwritten[place], written(l, selector));
    let on = Point {
        order: order + 1,
        selector: selector_after(verb, l.order, selector),
    };
    reach(search, orders, on, bits);
    if verb.jumps() {
        let to = Point {
            order: l.order.at as u32,
            selector,
        };
        reach(search, orders, to, bits);
    }
}

// Which registers reach each place unwritten, by a search that has found nothing yet. It is lent, since handed
// back by value its arrays would be copied.
pub fn explore(deck: &[u16], search: &mut Search)
    requires { Checked deck.now × (search.old ≡ unexplored) }
    ensures { Explored deck.now search.new.unwritten }
{
    let orders = (deck.len() / 4) as u32;
    let start = Point {
        order: 0,
        selector: 0,
    };
    reach(search, orders, start, ALL);
    while let Some(place) = search.stack.pop() {
        let i = place as usize;
        search.waiting[i] = false;
        take_up(deck, search, i);
    }
}

// The orders of one code: every r1 up to its limit, for each every r2, for each every `at`.
ghost use Rattle.std.specs.Prelude.{◌≡◌, ◌+◌, ◌-◌, ◌<◌, min, length};
ghost use Rattle.chart.specs.Block.{ats_of, block_of, size_of, Small, orders_in, place_in, Inside, SmallPlace, order_with};
ghost use Rattle.chart.specs.Writing.{writing, put, BlockFits};

use crate::series::fill_series;
use orders::Order;

// A code, and how many r1, r2 and `at` its orders have.
#[derive(Clone, Copy)]
pub struct Block {
    pub code: u16,
    pub r1s: u32,
    pub r2s: u32,
    pub ats: u32,
}

// Which order of a block.
#[derive(Clone, Copy)]
pub struct Place {
    pub r1: u32,
    pub r2: u32,
    pub at: u32,
}

fn ats(n: u16, limit: u16) -> u32
    ensures { result ≡ ats_of n limit }
{
    if limit == 0 {
        return 1;
    }
    n as u32
}

// By the table of orders; a code that is not in it has no order.
#[tactic(auto, unfolding(crate::specs::Block::block_of))]
pub fn block_of(n: u16, code: u16) -> Block
    ensures { result ≡ block_of n code }
{
    match orders::look_up(code) {
        None => Block {
            code,
            r1s: 0,
            r2s: 0,
            ats: 0,
        },
        Some(op) => Block {
            code,
            r1s: op.r1 as u32 + 1,
            r2s: op.r2 as u32 + 1,
            ats: ats(n, op.at),
        },
    }
}

pub fn size(b: Block) -> u32
    requires { Small b }
    ensures { result ≡ size_of b }
{
    b.r1s * b.r2s * b.ats
}

// The place that is i-th, found by dividing.
fn place_at(b: Block, i: u32) -> Place
    requires { i < size_of b }
    ensures { (place_in b result ≡ i) × Inside b result }
{
    let pair = i / b.ats;
    Place {
        r1: pair / b.r2s,
        r2: pair % b.r2s,
        at: i % b.ats,
    }
}

// The first place with the next r2, or with the next r1 after the last r2.
fn next_pair(b: Block, p: Place) -> Place
    requires { Inside b p × (p.r1 < 8) }
    ensures { (place_in b result ≡ place_in b p + (b.ats - p.at)) × Inside b result }
{
    let r2 = p.r2 + 1;
    if r2 < b.r2s {
        return Place {
            r1: p.r1,
            r2,
            at: 0,
        };
    }
    Place {
        r1: p.r1 + 1,
        r2: 0,
        at: 0,
    }
}

fn order_with(b: Block, p: Place) -> Order
    requires { SmallPlace p }
    ensures { result ≡ order_with b p }
{
    Order {
        code: b.code,
        r1: p.r1 as u16,
        r2: p.r2 as u16,
        at: p.at as u16,
    }
}

// As many orders as there are, or as there is room for.
pub fn fitting(orders: u32, room: usize) -> u32
    ensures { result ≡ min orders room }
{
    room.min(orders as usize) as u32
}

// Writes m orders of the block, from place i on, after the `count` that are there.
pub fn fill_block(cells: &mut [u16], count: usize, b: Block, i: u32, m: u32) -> usize
    requires { BlockFits (length cells.old) count b i m }
    ensures { writing cells.new result ≡ put (orders_in b i m) (writing cells.old count) }
{
    // Kept: a `while`, as a turn writes as many orders as its pair has; a `for` would count what no one needs.
    let mut p = place_at(b, i);
    let mut left = m;
    let mut done = count;
    while 0 < left {
        let k = fitting(left, (b.ats - p.at) as usize);
        done = fill_series(cells, done, order_with(b, p), k);
        left -= k;
        p = next_pair(b, p);
    }
    done
}

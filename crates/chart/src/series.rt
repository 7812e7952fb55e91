// Orders that differ in `at` alone.
ghost use Rattle.std.specs.Prelude.{◌≡◌, ◌+◌, ◌*◌, ◌≤◌, length};
ghost use Rattle.chart.specs.Block.{series};
ghost use Rattle.chart.specs.Writing.{writing, with_order, put, SeriesFits};

use orders::Order;

// Writes an order after the `count` that are there; how many there are then.
// Kept: the count beside the cells, here and in what calls this, since the buffer is lent by C and stays past it.
fn put_order(cells: &mut [u16], count: usize, o: Order) -> usize
    requires { (count + 1) * 4 ≤ length cells.old }
    ensures { writing cells.new result ≡ with_order o (writing cells.old count) }
{
    let p = count * 4;
    cells[p] = o.code;
    cells[p + 1] = o.r1;
    cells[p + 2] = o.r2;
    cells[p + 3] = o.at;
    count + 1
}

// Writes m orders: the first, and then with `at` rising by one.
pub fn fill_series(cells: &mut [u16], count: usize, first: Order, m: u32) -> usize
    requires { SeriesFits (length cells.old) count first.at m }
    ensures { writing cells.new result ≡ put (series first m) (writing cells.old count) }
{
    let start = first.at as u32;
    let mut done = count;
    for at in start..start + m {
        let at = at as u16;
        done = put_order(cells, done, Order { at, ..first });
    }
    done
}

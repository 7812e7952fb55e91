// What a line gives.
use orders::Order;

// A halfword of memory with its protect digit.
#[derive(Clone, Copy)]
pub struct Halfword {
    pub at: u16,
    pub protect: u16,
    pub word: u16,
}

#[derive(Clone, Copy)]
pub enum Given {
    Headed,
    Ordered(Order),
    Parted,
    Stored(Halfword),
}

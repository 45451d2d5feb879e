// What a run can be asked.

// An order: the block to fetch and the block to evict.
#[derive(Clone, Copy, PartialEq, Eq, Debug)]
pub struct Order {
    pub fetch: u8,
    pub evict: u8,
}

// One call. No Option of an order: the other case is a unit, and not nothing.
#[derive(Clone, Copy, PartialEq, Eq, Debug)]
pub enum Call {
    // begin a fetch of one block, and evict another in the same moment
    Order(Order),
    // let one unit of time go by
    Unit,
}

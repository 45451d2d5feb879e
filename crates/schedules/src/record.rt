// What is kept of the units that went by.
use tallies::{Order, Progress};

// A unit that went by: its number, the first being 1, what it did, and the orders given before it, each in the place of
// its disk.
#[derive(Clone, Copy)]
pub struct UnitRecord {
    pub number: u16,
    pub progress: Progress,
    pub orders: [Option<Order>; 4],
}

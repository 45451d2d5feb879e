// A fetch under way.

// The block that a disk fetches, and the units of time left.
#[derive(Clone, Copy, PartialEq, Eq, Debug)]
pub struct Fetch {
    pub block: u8,
    pub left: u8,
}

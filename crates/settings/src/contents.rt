// What a setting is to hold.

// There are to be `blocks` blocks, numbered from 0, of which the cache holds `size`; bit b of `initial` says whether
// block b is in the initial cache, and `requests` has the block of each request in turn.
#[derive(Clone, Copy)]
pub struct Contents<'a> {
    pub blocks: u8,
    pub size: u8,
    pub initial: u64,
    pub requests: &'a [u8],
}

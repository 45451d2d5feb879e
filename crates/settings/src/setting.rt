// What a setting holds, and the limits that each one keeps.
ghost use Rattle.std.specs.Prelude.{◌≡◌, ℕ, ◌^◌, ◌<◌, ◌≤◌, vec_len, vec_capacity, count_ones, slice_index};

// There are `blocks` blocks, numbered from 0, and the cache holds `size` of them; bit b of `initial` says whether
// block b is in the initial cache.
#[derive(Drop)]
pub struct Setting {
    pub(crate) blocks: u8,
    pub(crate) size: u8,
    pub(crate) initial: u64,
    pub(crate) requests: Vec<u8>,
    ghost some_block: { 1 ≤ blocks },
    ghost few_blocks: { blocks ≤ 64 },
    ghost some_held: { 1 ≤ size },
    ghost few_held: { size ≤ blocks },
    ghost few_requests: { vec_len requests ≤ 200 },
    // the initial cache is full, with known blocks
    ghost full: { count_ones initial ≡ size },
    ghost known: { initial < 2 ^ blocks },
    ghost named: { (c : ℕ) → slice_index requests.items c < blocks },
    // memory for as many requests as there can be is there from the start
    ghost room: { 200 ≤ vec_capacity requests },
}

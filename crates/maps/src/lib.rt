// Sets of blocks and of disks as 64-bit maps: bit b, bit 0 lowest, stands for block or disk b.
// A map is a number, as in the format, in the definitions and in a setting: a type of its own would be taken apart at each of these.
// The number is tested before each shift: `checked_shl` and `checked_shr` answer an `Option`, which reads no plainer here.
#![tactic(auto, using(crate::proofs::Maps::map_steps))]

ghost use Rattle.std.specs.Prelude.{◌≡◌, ℕ, ◌^◌, ◌<◌, true, not, ◌&&◌, ◌||◌, if◌then◌else◌, ◌==◌, count_ones, nat_lt};
ghost use Rattle.maps.specs.Maps.{has, with, without, total};

mod numbers;

pub use numbers::big_endian;

// Whether a block is in the map; one above 63 is in none.
#[tactic(auto, using(crate::proofs::Maps::map_steps), unfolding(crate::specs::Maps::has))]
pub fn has(map: u64, block: u8) -> bool
    ensures { result ≡ has map block }
{
    block < 64 && (map >> block) % 2 == 1
}

// The map with a block put in; one above 63 has no place in a map, which then stays as it is.
pub fn with(map: u64, block: u8) -> u64
    ensures value { result ≡ (if nat_lt block 64 then with map block else map) }
    ensures members { (b : ℕ) → has result b ≡ (has map b || (nat_lt block 64 && b == block)) }
{
    if block < 64 { map | 1 << block } else { map }
}

// The map with a block taken out.
pub fn without(map: u64, block: u8) -> u64
    ensures value { result ≡ without map block }
    ensures members { (b : ℕ) → has result b ≡ (has map b && not (b == block)) }
{
    if block < 64 { map & !(1 << block) } else { map }
}

// Whether every block in the map is below a limit.
pub fn within(map: u64, limit: u8) -> bool
    ensures value { result ≡ nat_lt map (2 ^ limit) }
    ensures members { result ≡ true → (b : ℕ) → has map b ≡ true → b < limit }
{
    limit >= 64 || map >> limit == 0
}

// How many blocks are in the map.
pub fn ones(map: u64) -> u8
    ensures value { result ≡ count_ones map }
    ensures members { result ≡ total 64 map (λ b. 1) }
{
    map.count_ones() as u8
}

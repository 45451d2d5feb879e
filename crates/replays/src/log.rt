// A replay under way.
ghost use Rattle.std.specs.Prelude.{◌≡◌, ◌<◌, ◌≤◌, length, vec_len, vec_capacity};

use schedules::UnitRecord;
use tallies::{Call, Order};

// The schedule, and what has been given to the run so far: the calls, refused ones included, and the units that went by.
// The unit that is being read has its map byte at `start`, and has these orders so far; the next byte to read is at
// `place`, which is `start` where no unit is being read. Three things are no plainer in another form:
// - an Option of a unit for `start` and `orders`: a refused unit is told at `start`, when it is no longer being read;
// - the run's `&mut` in here too: each clause would say that it is still the same one;
// - a reader shared with hand-ins for `bytes` and `place`: it would refuse in another way in each.
#[derive(Drop)]
pub(crate) struct Replay<'a> {
    pub(crate) bytes: &'a [u8],
    pub(crate) start: usize,
    pub(crate) place: usize,
    pub(crate) orders: [Option<Order>; 4],
    pub(crate) calls: Vec<Call>,
    pub(crate) units: Vec<UnitRecord>,
    ghost within: { place ≤ length bytes.now },
    ghost begun: { start ≤ place },
    ghost four: { length orders ≡ 4 },
    // each call has taken a byte, and where a unit is being read one byte more is read
    ghost few_calls: { vec_len calls ≤ place },
    ghost spare: { start < place → vec_len calls < place },
    ghost few_units: { vec_len units ≤ start },
    // memory for as many as there are bytes is there from the start
    ghost calls_fit: { length bytes.now ≤ vec_capacity calls },
    ghost units_fit: { length bytes.now ≤ vec_capacity units },
}

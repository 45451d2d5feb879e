// What a run holds, and what is seen of it.
ghost use Rattle.std.specs.Prelude.{◌≡◌, ◌+◌, ◌*◌, ◌≤◌, length, count_ones};
ghost use Rattle.settings.specs.Contents.{content};

use arrays::Array;
use settings::Setting;
use std::marker::Model;

// A run holds its setting and its array, and counts the requests served, the units gone by, those of them that stalled,
// and the orders accepted.
#[derive(Drop)]
pub struct Run<A: Array> {
    pub(crate) setting: Setting,
    pub(crate) array: A,
    // a flag, and no enum of two kinds of run: a void run has its counts too, all as at its beginning
    pub(crate) void: bool,
    pub(crate) cursor: u8,
    pub(crate) elapsed: u16,
    pub(crate) stall: u16,
    pub(crate) orders: u32,
    pub(crate) cache: u64,
    ghost within: { cursor ≤ length (content setting).requests },
    ghost spent: { elapsed ≡ cursor + stall },
    // each order takes a block out of the cache, where at most 64 come in with each unit
    ghost bounded: { orders + count_ones cache ≤ 64 * (elapsed + 1) },
}

impl<A: Array> Model for Run<A> {
    ghost use Rattle.runs.specs.Standing.{Standing};

    ghost Value = { Standing A };

    ghost use Rattle.runs.specs.Views.{standing};

    ghost view = { standing A.Placement A.Array };
}

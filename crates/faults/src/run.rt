// Why a run refuses a call.
ghost use Rattle.std.specs.Prelude.{◌≡◌};
ghost use Rattle.faults.specs.declared.run.RunFault.TheVariants.{Array as of_array};

use crate::array::ArrayFault;

#[derive(Clone, Copy, PartialEq, Eq, Debug)]
pub enum RunFault {
    // a fetch was under way when the run was made
    Void,
    // every request is served
    Finished { elapsed: u16 },
    // no more units can be counted
    TooLong { stall: u16 },
    // there is no such block in the setting
    NoSuchBlock { block: u8 },
    // the block to fetch is in the cache
    Cached { block: u8 },
    // the block to evict is not in the cache
    NotCached { block: u8 },
    // the array refused
    Array(ArrayFault),
}

// By hand: a clause names the case that `?` makes, and of a derived one nothing is known.
impl From<ArrayFault> for RunFault {
    ghost from_gives = { λ e r. r ≡ of_array e };

    fn from(fault: ArrayFault) -> RunFault {
        RunFault::Array(fault)
    }
}

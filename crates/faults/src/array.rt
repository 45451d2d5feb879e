// Why an array refuses.
ghost use Rattle.std.specs.Prelude.{◌≡◌};
ghost use Rattle.faults.specs.declared.array.BankFault.TheVariants.{Time as of_time};

// Why a fetch does not begin.
#[derive(Clone, Copy, PartialEq, Eq, Debug)]
pub enum ArrayFault {
    // the block's number is above 63
    NoSuchBlock { block: u8 },
    // the block's home disk is fetching this block
    DiskBusy { disk: u8, block: u8 },
}

// Why an array is not filled.
#[derive(Clone, Copy, PartialEq, Eq, Debug)]
pub enum FillFault {
    // the fetch time is not 1 to 64
    Time,
}

// Why a bank is not filled. No Option of a block: the other case is a reason too.
#[derive(Clone, Copy, PartialEq, Eq, Debug)]
pub enum BankFault {
    // the fetch time is not 1 to 64
    Time,
    // the home of this block, the first such, is above 3
    Home { block: u8 },
}

// By hand: a clause names the case that `?` makes, and of a derived one nothing is known.
impl From<FillFault> for BankFault {
    ghost from_gives = { λ _ r. r ≡ of_time };

    fn from(fault: FillFault) -> BankFault {
        match fault {
            FillFault::Time => BankFault::Time,
        }
    }
}

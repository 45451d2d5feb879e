// What a run answers.

// What a unit of time did for the block asked for.
#[derive(Clone, Copy, PartialEq, Eq, Debug)]
pub enum Progress {
    Served { block: u8 },
    Stalled { block: u8 },
}

// The answer to a call that is not refused: the order was accepted, or the unit went by. No Option: both are answers.
#[derive(Clone, Copy, PartialEq, Eq, Debug)]
pub enum Reply {
    Accepted,
    Passed(Progress),
}

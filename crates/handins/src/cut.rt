// What is read of a hand-in before it is tried.
ghost use Rattle.std.specs.Prelude.{◌+◌, ◌^◌, ◌<◌, length};

use settings::Contents;

// Part 1: what the setting is to hold, and the fetch time.
#[derive(Clone, Copy)]
pub(crate) struct PartOne<'a> {
    pub(crate) contents: Contents<'a>,
    pub(crate) time: u8,
}

// Part 2: the schedule, the place of its first byte, and the bytes behind it.
#[derive(Clone, Copy)]
pub(crate) struct Schedule<'a> {
    pub(crate) start: usize,
    pub(crate) bytes: &'a [u8],
    pub(crate) rest: &'a [u8],
    ghost placed: { start + length bytes.now < 2 ^ 64 },
}

// The parts of a hand-in, read and cut out.
ghost use Rattle.std.specs.Prelude.{◌≡◌, ◌+◌, ◌≤◌, length, take, drop, IfOk, OnOk};
ghost use Rattle.handins.specs.Tests.{and_then, tried};
ghost use Rattle.handins.specs.Fields.{requests_end, try_size, try_map_byte, try_whole, try_schedule};
ghost use Rattle.handins.specs.Reading.{Fields, Cut, reaches};

use crate::cut::{PartOne, Schedule};
use faults::{HandInFault, Part};
use maps::big_endian;
use settings::Contents;

const MOST_BYTES: usize = 65_000;

// The bytes before the first request.
const HEADER: usize = 13;

// The size of the hand-in, then its map byte, which may have no bit.
pub(crate) fn try_front(bytes: &[u8]) -> Result<(), HandInFault>
    ensures { tried result ≡ and_then (try_size bytes.now) (try_map_byte bytes.now) }
{
    if bytes.len() > MOST_BYTES {
        return Err(HandInFault::TooLong);
    }
    match bytes.first() {
        // tried here, before there is a reader, since the map byte comes next
        None => Err(HandInFault::Short {
            part: Part::Setting,
            place: 0,
        }),
        Some(map) if *map != 0 => Err(HandInFault::MapByte),
        Some(_) => Ok(()),
    }
}

// A hand-in of which the bytes before `place` are read. The bytes stay whole, since faults are told by their place in them; that
// they stay is said method by method, in a line. No one type with what a replay reads by, which refuses in another way.
#[derive(Clone, Copy)]
pub(crate) struct Reader<'a> {
    pub(crate) bytes: &'a [u8],
    pub(crate) place: usize,
    ghost within: { place ≤ length bytes.now },
}

impl<'a> Reader<'a> {
    // The next bytes, so many, which belong to this part; there may be fewer.
    fn take(&mut self, count: usize, part: Part) -> Result<&'a [u8], HandInFault>
        ensures tried { tried result ≡ reaches (length self.old.bytes.now) (self.old.place + count) part }
        ensures taken { IfOk result (λ s. s.now ≡ take count (drop self.old.place self.old.bytes.now)) }
        ensures place { OnOk result (self.new.place ≡ self.old.place + count) }
        ensures bytes { self.new.bytes.now ≡ self.old.bytes.now }
    {
        let Some(taken) = self.bytes[self.place..].get(..count) else {
            return Err(HandInFault::Short {
                part,
                place: self.bytes.len(),
            });
        };
        self.place += count;
        Ok(taken)
    }

    // Part 1, read whole from the map byte on.
    pub(crate) fn part_one(&mut self) -> Result<PartOne<'a>, HandInFault>
        requires { self.old.place ≡ 0 }
        ensures tried { tried result ≡ try_whole self.old.bytes.now }
        ensures fields { IfOk result (λ p. Fields self.old.bytes.now p) }
        ensures place { OnOk result (self.new.place ≡ requests_end self.old.bytes.now) }
        ensures bytes { self.new.bytes.now ≡ self.old.bytes.now }
    {
        // by place, as the format lists the fields: a pattern would want an `else` that is never taken
        let header = self.take(HEADER, Part::Setting)?;
        let requests = self.take(usize::from(header[4]), Part::Setting)?;
        Ok(PartOne {
            contents: Contents {
                blocks: header[1],
                size: header[2],
                initial: big_endian(&header[5..]),
                requests,
            },
            time: header[3],
        })
    }

    // Part 2, cut out whole behind its 2-byte length.
    pub(crate) fn schedule(&mut self) -> Result<Schedule<'a>, HandInFault>
        requires { self.old.place ≡ requests_end self.old.bytes.now }
        ensures tried { tried result ≡ try_schedule self.old.bytes.now }
        ensures cut { IfOk result (λ s. Cut self.old.bytes.now s) }
    {
        let size = big_endian(self.take(2, Part::Schedule)?);
        let start = self.place;
        let bytes = self.take(size as usize, Part::Schedule)?;
        Ok(Schedule {
            start,
            bytes,
            rest: &self.bytes[self.place..],
        })
    }
}

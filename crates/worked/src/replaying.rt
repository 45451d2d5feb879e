// Schedules on the worked run.
use super::running::worked_run;
use replays::{Numbered, replay};
use std::alloc::Global;
use std::test::Fail;

// What is told of a schedule that stops: a number, at a place, after so many units. (A hand-in is told by its part.)
#[derive(Clone, Copy, PartialEq, Eq, Debug)]
struct Told {
    number: u8,
    place: usize,
    units: usize,
}

// How the schedule stops.
fn stop(heap: Global, bytes: &[u8]) -> Result<Told, Fail> {
    let mut run = worked_run(heap)?;
    let replayed = replay(heap, &mut run, bytes)?;
    match replayed.ending {
        Ok(()) => Err(Fail::new("it did not stop")),
        Err(fault) => Ok(Told {
            number: fault.number(),
            place: fault.place(),
            units: replayed.units.len(),
        }),
    }
}

#[test]
fn faults(rt: HostRuntime) -> Result<(), Fail> {
    let cases: [(&[u8], u8, usize, usize); 11] = [
        (&[], 11, 0, 0),
        (&[1, 3], 11, 2, 0),
        (&[0, 0], 11, 2, 2),
        // a disk that there is not, also where its block is none either
        (&[2, 3, 2], 12, 0, 0),
        (&[2, 9, 2], 12, 0, 0),
        (&[0, 128, 3, 2], 12, 1, 1),
        // the first disk's order is given before the second disk's bytes are read
        (&[3, 0, 1], 8, 0, 0),
        (&[3, 3, 2], 11, 3, 0),
        (&[1, 9, 0], 7, 0, 0),
        (&[1, 3, 2, 1, 2, 1], 10, 3, 1),
        (&[1, 3, 2, 0, 0, 1, 2, 1, 0, 0, 0, 0, 0], 14, 11, 7),
    ];
    for (bytes, number, place, units) in cases {
        let told = Told {
            number,
            place,
            units,
        };
        assert_eq!(rt; stop(rt.alloc(), bytes)?, told, "at {bytes:?}");
    }
    Ok(())
}

#[test]
fn whole(rt: HostRuntime) -> Result<(), Fail> {
    let heap = rt.alloc();
    let mut run = worked_run(heap)?;
    let replayed = replay(heap, &mut run, &[1, 3, 2, 0, 0, 1, 2, 1, 0, 0, 0])?;
    assert!(rt; replayed.ending.is_ok());
    assert_eq!(rt; replayed.calls.len(), 9);
    assert_eq!(rt; run.stall(), 2);
    // a finished run takes no byte more
    let again = replay(heap, &mut run, &[])?;
    assert!(rt; again.ending.is_ok());
    Ok(())
}

// Hand-ins that are refused, each with its number, part and place.
use handins::{Counts, Numbered, mark_hand_in};
use std::alloc::Global;
use std::test::Fail;

// The worked setting above a drive with fetch time 3, and its schedule.
pub fn worked_bytes() -> [u8; 31] {
    [
        0, 4, 3, 3, 5, 0, 0, 0, 0, 0, 0, 0, 7, 0, 1, 3, 0, 2, 0, 11, 1, 3, 2, 0, 0, 1, 2, 1, 0, 0,
        0,
    ]
}

// What is told of a hand-in that is refused: a number, a part and a place. (A schedule by itself has no part.)
#[derive(Clone, Copy, PartialEq, Eq, Debug)]
struct Told {
    number: u8,
    part: u8,
    place: usize,
}

// Why the hand-in is refused.
fn refusal(heap: Global, bytes: &[u8]) -> Result<Told, Fail> {
    match mark_hand_in(heap, bytes)?.ending {
        Ok(()) => Err(Fail::new("it is not refused")),
        Err(fault) => Ok(Told {
            number: fault.number(),
            part: fault.part().number(),
            place: fault.place(),
        }),
    }
}

// The worked hand-in with one byte changed.
fn changed(at: usize, byte: u8) -> Result<[u8; 31], Fail> {
    let mut bytes = worked_bytes();
    let Some(place) = bytes.get_mut(at) else {
        return Err(Fail::new("no such byte"));
    };
    *place = byte;
    Ok(bytes)
}

#[test]
fn one_byte(rt: HostRuntime) -> Result<(), Fail> {
    let cases = [
        // a bit of the map byte; then blocks, cache size, requests and fetch time
        (0, 1, 12, 1, 0),
        (1, 65, 1, 1, 1),
        (2, 0, 1, 1, 2),
        (3, 0, 1, 1, 3),
        (4, 255, 11, 1, 31),
        // the initial map, and the third request
        (12, 3, 2, 1, 5),
        (15, 4, 3, 1, 15),
        // the schedule's length: too long, and too short
        (19, 12, 11, 2, 31),
        (19, 10, 11, 2, 30),
        // its bytes: a disk that there is not, and a block that is cached
        (20, 2, 12, 2, 20),
        (26, 0, 8, 2, 25),
    ];
    for (at, byte, number, part, place) in cases {
        let told = Told {
            number,
            part,
            place,
        };
        assert_eq!(rt;
            refusal(rt.alloc(), &changed(at, byte)?)?,
            told,
            "{byte} at {at}"
        );
    }
    Ok(())
}

#[test]
fn order_of_tests(rt: HostRuntime) -> Result<(), Fail> {
    let heap = rt.alloc();
    let whole = worked_bytes();
    let mut unfilled = worked_bytes();
    unfilled[3] = 0;
    unfilled[12] = 0;
    let mut longer = whole.to_vec(heap)?;
    longer.push(0)?;
    let long = vec![in heap; 4; 65_001]?;
    let cases: [(&[u8], u8, u8, usize); 8] = [
        (&whole[0..0], 11, 1, 0),
        (&whole[0..17], 11, 1, 17),
        (&whole[0..18], 11, 2, 18),
        (&whole[0..19], 11, 2, 19),
        // a bad map byte comes before the end of the bytes, a bad fetch time before a bad initial map
        (&[4], 12, 1, 0),
        (&unfilled, 1, 1, 3),
        // bytes behind the schedule, and more bytes than a hand-in may have
        (&longer, 14, 3, 31),
        (&long, 14, 1, 65_000),
    ];
    for (bytes, number, part, place) in cases {
        let told = Told {
            number,
            part,
            place,
        };
        assert_eq!(rt; refusal(heap, bytes)?, told);
    }
    Ok(())
}

#[test]
fn counts(rt: HostRuntime) -> Result<(), Fail> {
    let heap = rt.alloc();
    let report = mark_hand_in(heap, &worked_bytes())?;
    assert!(rt; report.ending.is_ok());
    assert_eq!(rt; report.units.len(), 7);
    assert_eq!(rt;
        report.counts,
        Counts {
            cursor: 5,
            elapsed: 7,
            stall: 2,
            orders: 2,
        }
    );
    Ok(())
}

// Runs above a drive.
use super::setting::worked_setting;
use arrays::{Array, ArrayFault, Drive, FillFault};
use runs::{Run, RunFault};
use settings::Setting;
use std::alloc::Global;
use std::test::Fail;
use tallies::{Call, Order};

// The order to fetch one block and evict the other.
fn order(fetch: u8, evict: u8) -> Order {
    Order { fetch, evict }
}

// The worked setting above a drive with fetch time 3.
pub fn worked_run(heap: Global) -> Result<Run<Drive>, Fail> {
    let mut drive = Drive::new();
    drive.fill(3)?;
    Ok(Run::new(worked_setting(heap)?, drive))
}

#[test]
fn worked_calls(rt: HostRuntime) -> Result<(), Fail> {
    let heap = rt.alloc();
    let mut run = worked_run(heap)?;
    let calls = [
        Call::Order(order(3, 2)),
        Call::Unit,
        Call::Unit,
        Call::Unit,
        Call::Order(order(2, 1)),
        Call::Unit,
        Call::Unit,
        Call::Unit,
        Call::Unit,
    ];
    let replies = run.perform(heap, &calls)?;
    assert_eq!(rt; replies.len(), 9);
    assert!(rt; run.is_finished());
    assert_eq!(rt; run.stall(), 2);
    assert_eq!(rt; run.elapsed(), 7);
    assert_eq!(rt; run.orders(), 2);
    // a finished run refuses, also what it would refuse for another reason
    assert_eq!(rt;
        run.order(order(9, 9)),
        Err(RunFault::Finished { elapsed: 7 })
    );
    Ok(())
}

#[test]
fn first_orders(rt: HostRuntime) -> Result<(), Fail> {
    let mut run = worked_run(rt.alloc())?;
    let refused = [
        (0, 1, RunFault::Cached { block: 0 }),
        (3, 3, RunFault::NotCached { block: 3 }),
        (4, 0, RunFault::NoSuchBlock { block: 4 }),
        (5, 4, RunFault::NoSuchBlock { block: 5 }),
    ];
    for (fetch, evict, fault) in refused {
        assert_eq!(rt; run.order(order(fetch, evict)), Err(fault));
    }
    assert_eq!(rt; run.order(order(3, 2)), Ok(()));
    assert_eq!(rt;
        run.order(order(2, 1)),
        Err(RunFault::Array(ArrayFault::DiskBusy { disk: 0, block: 3 }))
    );
    assert_eq!(rt; run.orders(), 1);
    Ok(())
}

#[test]
fn void_and_empty(rt: HostRuntime) -> Result<(), Fail> {
    let heap = rt.alloc();
    let mut drive = Drive::new();
    assert_eq!(rt; drive.fill(0), Err(FillFault::Time));
    assert_eq!(rt; drive.fill(65), Err(FillFault::Time));
    drive.begin(5)?;
    assert!(rt; drive.look(0).is_some());
    assert_eq!(rt; drive.look(1), None);
    // void, though there is no request; and without a fetch under way it is finished
    let mut run = Run::new(Setting::new(heap)?, drive);
    assert_eq!(rt; run.order(order(0, 0)), Err(RunFault::Void));
    assert_eq!(rt; run.unit(), Err(RunFault::Void));
    let mut empty = Run::new(Setting::new(heap)?, Drive::new());
    assert_eq!(rt;
        empty.order(order(0, 0)),
        Err(RunFault::Finished { elapsed: 0 })
    );
    Ok(())
}

const MOST_UNITS: u16 = 65_535;

#[test]
fn too_long(rt: HostRuntime) -> Result<(), Fail> {
    let mut run = worked_run(rt.alloc())?;
    // without an order two requests are served, and the third waits for ever
    for _ in 0..MOST_UNITS {
        run.unit()?;
    }
    assert_eq!(rt; run.elapsed(), MOST_UNITS);
    assert_eq!(rt; run.unit(), Err(RunFault::TooLong { stall: 65_533 }));
    Ok(())
}

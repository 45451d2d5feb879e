// A bank of two disks.
use arrays::{Array, ArrayFault, Bank, BankFault, Fetch, Placement};
use std::test::Fail;

// Block 1 lives on disk 1, every other on disk 0.
fn two_homes() -> [u8; 64] {
    let mut homes = [0; 64];
    homes[1] = 1;
    homes
}

#[test]
fn refused_fillings(rt: HostRuntime) -> Result<(), Fail> {
    let mut homes = two_homes();
    homes[5] = 4;
    let mut bank = Bank::new();
    // the fetch time is tried before the homes
    let refused = [
        (0, BankFault::Time),
        (65, BankFault::Time),
        (64, BankFault::Home { block: 5 }),
    ];
    for (time, fault) in refused {
        assert_eq!(rt; bank.fill(time, &homes), Err(fault));
    }
    assert_eq!(rt; bank.disks(), 1);
    assert_eq!(rt; bank.fetch_time(), 1);
    Ok(())
}

#[test]
fn two_disks_at_once(rt: HostRuntime) -> Result<(), Fail> {
    let mut bank = Bank::new();
    bank.fill(2, &two_homes())?;
    assert_eq!(rt; bank.disks(), 2);
    assert_eq!(rt; bank.home(1), 1);
    assert_eq!(rt; bank.home(64), 0);
    assert_eq!(rt; bank.begin(64), Err(ArrayFault::NoSuchBlock { block: 64 }));
    bank.begin(0)?;
    bank.begin(1)?;
    assert_eq!(rt;
        bank.begin(2),
        Err(ArrayFault::DiskBusy { disk: 0, block: 0 })
    );
    assert_eq!(rt; bank.look(2), None);
    // each fetch takes two units; then both blocks arrive
    assert_eq!(rt; bank.step(), 0);
    assert_eq!(rt; bank.look(1), Some(Fetch { block: 1, left: 1 }));
    assert_eq!(rt; bank.step(), 0b11);
    assert_eq!(rt; bank.look(1), None);
    Ok(())
}

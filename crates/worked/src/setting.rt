// Settings at and beyond their limits, and the worked setting.
use settings::{Contents, Figure, Setting, SettingFault};
use std::alloc::Global;
use std::test::Fail;

// Four blocks, a cache of three that holds 0, 1 and 2, and the requests 0 1 3 0 2.
pub fn worked_setting(heap: Global) -> Result<Setting, Fail> {
    let mut setting = Setting::new(heap)?;
    setting.fill(&Contents {
        blocks: 4,
        size: 3,
        initial: 0b111,
        requests: &[0, 1, 3, 0, 2],
    })?;
    Ok(setting)
}

#[test]
fn limits(rt: HostRuntime) -> Result<(), Fail> {
    let mut setting = Setting::new(rt.alloc())?;
    let most = Contents {
        blocks: 64,
        size: 64,
        initial: u64::MAX,
        requests: &[63; 200],
    };
    assert_eq!(rt; setting.fill(&most), Ok(()));
    let refused: [(u8, u8, u64, &[u8], Figure); 5] = [
        (65, 1, 1, &[], Figure::Blocks),
        (0, 0, 0, &[], Figure::Blocks),
        (4, 5, 0b1111, &[], Figure::Size),
        (4, 0, 0, &[], Figure::Size),
        (1, 1, 1, &[0; 201], Figure::Requests),
    ];
    for (blocks, size, initial, requests, figure) in refused {
        let new = Contents {
            blocks,
            size,
            initial,
            requests,
        };
        assert_eq!(rt;
            setting.fill(&new),
            Err(SettingFault::Figure(figure)),
            "{blocks} {size}"
        );
    }
    assert_eq!(rt; setting.blocks(), 64);
    assert_eq!(rt; setting.len(), 200);
    Ok(())
}

#[test]
fn maps_and_requests(rt: HostRuntime) -> Result<(), Fail> {
    let mut setting = worked_setting(rt.alloc())?;
    let refused: [(u64, &[u8], SettingFault); 4] = [
        // too few, too many, and as many as wanted, but one of them no block
        (0b11, &[], SettingFault::Initial { ones: 2 }),
        (0b1111, &[], SettingFault::Initial { ones: 4 }),
        (0b10011, &[], SettingFault::Initial { ones: 3 }),
        (0b111, &[0, 1, 4, 5], SettingFault::Request { number: 3 }),
    ];
    for (initial, requests, fault) in refused {
        let new = Contents {
            blocks: 4,
            size: 3,
            initial,
            requests,
        };
        assert_eq!(rt; setting.fill(&new), Err(fault), "{initial}");
    }
    assert_eq!(rt; setting.asked(2), Some(3));
    assert_eq!(rt; setting.asked(5), None);
    Ok(())
}

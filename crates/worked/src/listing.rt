// The text of the worked hand-in, and of one that is refused.
use super::handing::worked_bytes;
use listings::marked_listing;
use std::test::Fail;

#[test]
fn texts(rt: HostRuntime) -> Result<(), Fail> {
    let heap = rt.alloc();
    assert_eq!(rt;
        marked_listing(heap, &worked_bytes())?.as_str(),
        "1 s 0 +3-2\n2 s 1\n3 . 3\n4 s 3 +2-1\n5 s 0\n6 . 2\n7 s 2\nstall 2 of 7\n"
    );
    assert_eq!(rt; marked_listing(heap, &[])?.as_str(), "refused 11 part 1\n");
    Ok(())
}

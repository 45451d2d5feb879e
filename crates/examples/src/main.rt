// Marks the hand-ins in the files that the arguments name, and prints each file's name and its listing.
#![tactic(auto)]

use handins::mark_hand_in;
use listings::listing;
use std::{env, fs};

// The name is printed once the hand-in is marked, and before the listing is made: where memory is short for the listing alone, it is
// told which file that was.
fn show(rt: &HostRuntime, name: &str) -> anyhow::Result<()> {
    let heap = rt.alloc();
    let bytes = fs::read(rt, name)?;
    let report = mark_hand_in(heap, bytes.as_slice())?;
    rt.println(name)?;
    rt.print(listing(heap, &report)?)?;
    Ok(())
}

fn main(rt: HostRuntime) -> anyhow::Result<()> {
    for name in env::args(&rt)?.skip(1) {
        show(&rt, name.as_str())?;
    }
    Ok(())
}

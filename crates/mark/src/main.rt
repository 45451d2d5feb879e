// Marks the hand-in that stands on standard input, and prints a line for each unit that ran, and the last line.
#![tactic(auto)]

use listings::marked_listing;
use std::io::Read;

// One byte more than a hand-in may have, so that a longer one is seen to be too long.
const MOST_READ: u64 = 65_001;

fn main(rt: HostRuntime) -> anyhow::Result<()> {
    let heap = rt.alloc();
    let mut bytes = Vec::new(heap);
    rt.stdin().take(MOST_READ).read_to_end(&mut bytes)?;
    rt.print(marked_listing(heap, bytes.as_slice())?)?;
    Ok(())
}

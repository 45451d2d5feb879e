// The counts of a run, as a report has them.
ghost use Rattle.std.specs.Prelude.{◌≡◌};
ghost use Rattle.handins.specs.Marking.{counts_of};

use crate::report::Counts;
use arrays::Array;
use runs::Run;

// The counts of a run as they stand.
impl<A: Array> From<&Run<A>> for Counts {
    ghost from_gives = { λ run counts. counts ≡ counts_of run.now.state };

    fn from(run: &Run<A>) -> Counts {
        Counts {
            cursor: run.cursor(),
            elapsed: run.elapsed(),
            stall: run.stall(),
            orders: run.orders(),
        }
    }
}

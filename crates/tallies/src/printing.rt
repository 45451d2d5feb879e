// Orders, and what a unit did, printed.
ghost use Rattle.std.specs.Prelude.{Some};
ghost use Rattle.tallies.specs.Texts.{order_text, progress_text};

use crate::call::Order;
use crate::reply::Progress;
use std::fmt;

impl fmt::Display for Order {
    ghost output = { λ order. Some (order_text order) };

    fn fmt<W: fmt::Write>(&self, f: &mut fmt::Formatter<W>) -> fmt::Result {
        write!(f, "+{}-{}", self.fetch, self.evict)
    }
}

impl fmt::Display for Progress {
    ghost output = { λ progress. Some (progress_text progress) };

    fn fmt<W: fmt::Write>(&self, f: &mut fmt::Formatter<W>) -> fmt::Result {
        match self {
            Progress::Served { block } => write!(f, "s {block}"),
            Progress::Stalled { block } => write!(f, ". {block}"),
        }
    }
}

// Counts and reports, printed.
ghost use Rattle.std.specs.Prelude.{Some};
ghost use Rattle.handins.specs.Marking.{reported};
ghost use Rattle.handins.specs.Texts.{counts_text, listing_text};

use crate::report::{Counts, Report};
use std::fmt;

impl fmt::Display for Counts {
    ghost output = { λ counts. Some (counts_text counts) };

    fn fmt<W: fmt::Write>(&self, f: &mut fmt::Formatter<W>) -> fmt::Result {
        write!(f, "stall {} of {}", self.stall, self.elapsed)
    }
}

impl fmt::Display for Report {
    ghost output = { λ report. Some (listing_text (reported report)) };

    fn fmt<W: fmt::Write>(&self, f: &mut fmt::Formatter<W>) -> fmt::Result {
        for unit in &self.units {
            writeln!(f, "{unit}")?;
        }
        match &self.ending {
            Ok(()) => writeln!(f, "{}", self.counts),
            Err(fault) => writeln!(f, "{fault}"),
        }
    }
}

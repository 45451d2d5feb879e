// Units that went by, printed.
ghost use Rattle.std.specs.Prelude.{Some};
ghost use Rattle.schedules.specs.Texts.{record_text};

use crate::record::UnitRecord;
use std::fmt;

impl fmt::Display for UnitRecord {
    ghost output = { λ unit. Some (record_text unit) };

    fn fmt<W: fmt::Write>(&self, f: &mut fmt::Formatter<W>) -> fmt::Result {
        write!(f, "{} {}", self.number, self.progress)?;
        // tried over `.iter().flatten()`: what is written then was not proved
        for order in &self.orders {
            if let Some(order) = order {
                write!(f, " {order}")?;
            }
        }
        Ok(())
    }
}

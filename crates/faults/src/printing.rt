// A refusal, printed.
ghost use Rattle.std.specs.Prelude.{Some};
ghost use Rattle.faults.specs.Faults.{hand_in_fault};
ghost use Rattle.faults.specs.Texts.{refusal_text};

use crate::handin::HandInFault;
use crate::numbering::Numbered;
use std::error::Error;
use std::fmt;

impl fmt::Display for HandInFault {
    ghost output = { λ fault. Some (refusal_text (hand_in_fault fault)) };

    fn fmt<W: fmt::Write>(&self, f: &mut fmt::Formatter<W>) -> fmt::Result {
        write!(f, "refused {} part {}", self.number(), self.part().number())
    }
}

impl Error for HandInFault {}

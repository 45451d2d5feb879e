// The text that tells of a hand-in.
#![tactic(auto)]

ghost use Rattle.std.specs.Prelude.{◌≡◌, ◌++◌, IfSome, IfOk, string_bytes};
ghost use Rattle.faults.specs.Faults.{hand_in_fault};
ghost use Rattle.handins.specs.Fields.{try_parts};
ghost use Rattle.handins.specs.Marking.{Truly, marked, reported};
ghost use Rattle.handins.specs.Tests.{passes};
ghost use Rattle.handins.specs.Texts.{last_text, listing_text, newline, refused_text, unit_text};

use faults::HandInFault;
use handins::{Counts, Report, mark_hand_in};
use schedules::UnitRecord;
use std::alloc::{AllocError, Global};
use std::fmt;

// What is printed of a value, on a line of its own.
fn line<T: fmt::Display>(heap: Global, value: &T) -> Result<String, AllocError>
    ensures { IfOk result (λ s. IfSome (T.output value.now) (λ text. string_bytes s ≡ text ++ newline)) }
{
    format!(in heap; "{value}\n")
}

// The line of a unit: its number, s or a point, the block asked for, and the orders.
pub fn unit_line(heap: Global, unit: &UnitRecord) -> Result<String, AllocError>
    ensures { IfOk result (λ s. string_bytes s ≡ unit_text unit.now) }
{
    line(heap, unit)
}

// The last line of a listing, where the run is finished.
pub fn last_line(heap: Global, counts: &Counts) -> Result<String, AllocError>
    ensures { IfOk result (λ s. string_bytes s ≡ last_text counts.now) }
{
    line(heap, counts)
}

// The last line of a listing, where the hand-in is refused.
pub fn refused_line(heap: Global, fault: &HandInFault) -> Result<String, AllocError>
    ensures { IfOk result (λ s. string_bytes s ≡ refused_text (hand_in_fault fault.now)) }
{
    line(heap, fault)
}

// The whole text that tells of a hand-in.
pub fn listing(heap: Global, report: &Report) -> Result<String, AllocError>
    ensures { IfOk result (λ s. string_bytes s ≡ listing_text (reported report.now)) }
{
    report.to_string(heap)
}

// Marks a hand-in, and answers the whole text that tells of it. (The heap first, as wherever memory is asked.)
pub fn marked_listing(heap: Global, bytes: &[u8]) -> Result<String, AllocError>
    ensures listing { IfOk result (λ s. string_bytes s ≡ listing_text (marked bytes.now)) }
    ensures truly { try_parts bytes.now ≡ passes → Truly bytes.now }
{
    let report = mark_hand_in(heap, bytes)?;
    listing(heap, &report)
}

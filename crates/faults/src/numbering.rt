// The number under which each refusal is reported, its part and its place.
ghost use Rattle.std.specs.Prelude.{◌≡◌, ℕ, ◌-◌, ◌^◌, min};
ghost use Rattle.faults.specs.Faults.{array_fault, bank_fault, figure, fill_fault, hand_in_fault, in_part_one, part_number, replay_fault, run_fault, setting_fault};
ghost use Rattle.faults.specs.Outcomes.{number_of};

use crate::array::{ArrayFault, BankFault, FillFault};
use crate::handin::{HandInFault, Part};
use crate::replay::ReplayFault;
use crate::run::RunFault;
use crate::setting::{Figure, SettingFault};

// What is reported under a number: each refusal, and the parts and figures that refusals name.
pub trait Numbered {
    ghost numbered: { Self → ℕ };

    fn number(&self) -> u8
        ensures { result ≡ numbered self.now };
}

impl Numbered for Figure {
    ghost numbered = { figure };

    fn number(&self) -> u8 {
        *self as u8
    }
}

impl Numbered for SettingFault {
    ghost numbered = { λ e. number_of (setting_fault e) };

    fn number(&self) -> u8 {
        match self {
            SettingFault::Figure(_) => 1,
            SettingFault::Initial { .. } => 2,
            SettingFault::Request { .. } => 3,
        }
    }
}

impl Numbered for ArrayFault {
    ghost numbered = { λ e. number_of (array_fault e) };

    fn number(&self) -> u8 {
        match self {
            ArrayFault::NoSuchBlock { .. } => 7,
            ArrayFault::DiskBusy { .. } => 10,
        }
    }
}

impl Numbered for FillFault {
    ghost numbered = { λ e. number_of (fill_fault e) };

    fn number(&self) -> u8 {
        match self {
            FillFault::Time => 1,
        }
    }
}

impl Numbered for BankFault {
    ghost numbered = { λ e. number_of (bank_fault e) };

    fn number(&self) -> u8 {
        match self {
            BankFault::Time | BankFault::Home { .. } => 1,
        }
    }
}

impl Numbered for RunFault {
    ghost numbered = { λ e. number_of (run_fault e) };

    fn number(&self) -> u8 {
        match self {
            RunFault::Void => 4,
            RunFault::Finished { .. } => 5,
            RunFault::TooLong { .. } => 6,
            RunFault::NoSuchBlock { .. } => 7,
            RunFault::Cached { .. } => 8,
            RunFault::NotCached { .. } => 9,
            RunFault::Array(fault) => fault.number(),
        }
    }
}

impl Numbered for ReplayFault {
    ghost numbered = { λ e. number_of (replay_fault e).said };

    fn number(&self) -> u8 {
        match self {
            ReplayFault::Short { .. } => 11,
            ReplayFault::Bit { .. } => 12,
            ReplayFault::LeftOver { .. } => 14,
            ReplayFault::Run(refused) => refused.fault.number(),
        }
    }
}

impl ReplayFault {
    // The place in the schedule.
    pub fn place(&self) -> usize
        ensures { result ≡ (replay_fault self.now).place }
    {
        match self {
            ReplayFault::Short { place }
            | ReplayFault::Bit { place }
            | ReplayFault::LeftOver { place } => *place,
            ReplayFault::Run(refused) => refused.place,
        }
    }
}

impl Numbered for Part {
    ghost numbered = { part_number };

    fn number(&self) -> u8 {
        *self as u8
    }
}

// The place of the field at which filling a setting failed.
fn field_place(fault: &SettingFault) -> usize
    ensures { result ≡ (in_part_one (setting_fault fault.now)).place }
{
    match fault {
        SettingFault::Figure(Figure::Blocks) => 1,
        SettingFault::Figure(Figure::Size) => 2,
        SettingFault::Figure(Figure::Requests) => 4,
        SettingFault::Initial { .. } => 5,
        SettingFault::Request { number } => 12 + *number as usize,
    }
}

impl Numbered for HandInFault {
    ghost numbered = { λ e. number_of (hand_in_fault e).said };

    fn number(&self) -> u8 {
        match self {
            HandInFault::Short { .. } => 11,
            HandInFault::MapByte => 12,
            HandInFault::TooLong | HandInFault::LeftOver { .. } => 14,
            HandInFault::Setting(fault) => fault.number(),
            HandInFault::Array(fault) => fault.number(),
            HandInFault::Schedule(fault) => fault.fault.number(),
        }
    }
}

impl HandInFault {
    pub fn part(&self) -> Part
        ensures { part_number result ≡ (hand_in_fault self.now).part }
    {
        match self {
            HandInFault::Short { part, .. } => *part,
            HandInFault::TooLong
            | HandInFault::MapByte
            | HandInFault::Setting(_)
            | HandInFault::Array(_) => Part::Setting,
            HandInFault::Schedule(_) => Part::Schedule,
            HandInFault::LeftOver { .. } => Part::Page,
        }
    }

    // The place in the hand-in; no place is beyond the greatest number.
    pub fn place(&self) -> usize
        ensures { result ≡ min (hand_in_fault self.now).place (2 ^ 64 - 1) }
    {
        match self {
            HandInFault::TooLong => 65_000,
            HandInFault::Short { place, .. } | HandInFault::LeftOver { place } => *place,
            HandInFault::MapByte => 0,
            HandInFault::Setting(fault) => field_place(fault),
            HandInFault::Array(_) => 3,
            HandInFault::Schedule(fault) => fault.start.saturating_add(fault.fault.place()),
        }
    }
}

// Every refusal, with the number and the values that it returns.
#![tactic(auto)]

mod array;
mod handin;
mod numbering;
mod printing;
mod replay;
mod run;
mod setting;

pub use array::{ArrayFault, BankFault, FillFault};
pub use handin::{HandInFault, Part, ScheduleFault};
pub use numbering::Numbered;
pub use replay::{Refused, ReplayFault};
pub use run::RunFault;
pub use setting::{Figure, SettingFault};

// Arrays of disks: where the blocks live, how long a fetch takes, and which fetches are under way.
#![tactic(auto)]

mod array;
mod bank;
mod disk;
mod drive;
mod fetch;
mod filling;
mod table;
mod time;

pub use array::{Array, Placement};
pub use bank::Bank;
pub use drive::Drive;
pub use faults::{ArrayFault, BankFault, FillFault, Numbered};
pub use fetch::Fetch;

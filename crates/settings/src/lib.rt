// The setting of a run: the blocks, the cache's size, the initial cache and the requests.
#![tactic(auto)]

mod contents;
mod filling;
mod reading;
mod setting;

pub use contents::Contents;
pub use faults::{Figure, Numbered, SettingFault};
pub use setting::Setting;

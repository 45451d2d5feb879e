// Worked cases, with figures found by hand, run through the code.
#![tactic(auto)]

#[cfg(test)]
mod banking;
#[cfg(test)]
mod handing;
#[cfg(test)]
mod listing;
#[cfg(test)]
mod replaying;
#[cfg(test)]
mod running;
#[cfg(test)]
mod setting;

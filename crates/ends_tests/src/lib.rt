// Examples of the two ends, proved to be safe and then run.
#![tactic(auto)]

pub mod crowd;
#[cfg(test)]
mod divider;
#[cfg(test)]
mod opening;
#[cfg(test)]
mod register;

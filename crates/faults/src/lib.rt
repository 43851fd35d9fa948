// What a refusal says: its cause, and where it arose.
#![tactic(auto)]

pub mod fault;
pub mod refusal;
#[cfg(test)]
mod tests;

pub use fault::Fault;
pub use refusal::Refusal;

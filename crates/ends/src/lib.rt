// The two ends that a rack's sources stand on: registers and dividers.
#![tactic(auto)]

pub mod divider;
mod lookup;
pub mod register;

pub use divider::Divider;
pub use register::Register;

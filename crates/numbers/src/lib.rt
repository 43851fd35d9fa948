// Numbers in groups of seven bits: the lowest group first, bit 7 of a byte set if another follows,
// and only the shortest form.
#![tactic(auto)]

pub mod reading;
pub mod theorems;
pub mod writing;

pub use reading::read;
pub use theorems::{forms_stand, worked_numbers};
pub use writing::{size, write};

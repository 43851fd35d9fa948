// Register files: the marks of the columns and the rows of a register, as numbers in groups of seven bits.
#![tactic(auto)]

mod columns;
mod making;
mod opening;
mod rows;
pub mod table;
pub mod theorems;
mod writing;

pub use table::Table;
pub use table::calls::write_file;
pub use theorems::{files_stand, worked_file};

// Executable orders of a conjunctive query's literals.
#![tactic(auto)]

mod bound_variables;
pub mod conjunction;
mod picking;
pub mod places;
pub mod queries;
pub mod worked;

pub use conjunction::Conjunction;
pub use picking::order;
pub use places::Order;

// Lists of at most N items, kept inside the value: they take no memory but their own, and are copied
// with it.
#![tactic(auto)]

pub mod list;

pub use list::Bounded;

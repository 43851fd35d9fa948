// What stands over sources: layers over any one of them, and racks of several.
#![tactic(auto)]

mod asked;
mod entry;
pub mod memo;
pub mod quota;
pub mod racks;
mod table;

pub use memo::Memo;
pub use quota::Quota;
pub use racks::{Beside, One};

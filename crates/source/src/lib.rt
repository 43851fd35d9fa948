// What a source is: its marks, its meaning and its calls.
#![tactic(auto)]

pub mod admission;
pub mod laws;
pub mod mark;
pub mod rack;
pub mod row;
pub mod source;
pub mod values;

pub use admission::admit;
pub use mark::Mark;
pub use rack::Rack;
pub use row::Row;
pub use source::{ANSWER_ROOM, Source};

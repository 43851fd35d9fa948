// The catalogue of a rack: the names of its sources and the kinds and marks of their columns, read
// from a text.
#![tactic(auto)]

pub mod columns;
pub mod racks;
mod reader;
pub mod record;
mod state;
pub mod text;

pub use record::Catalogue;
pub use text::each_text_has_one_answer;

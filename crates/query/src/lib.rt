// Queries over a catalogue, read from a text.
#![tactic(auto)]

mod draft;
mod ends;
mod kinds;
mod reader;
pub mod record;
mod stage;
pub mod term;
pub mod text;
mod token;

pub use record::{HEAD_MAX, LITERAL_MAX, Query, VARIABLE_MAX};
pub use term::{Literal, TERM_MAX, Term};
pub use text::each_text_has_one_answer;

// What the texts of catalogues and queries share: bytes, tokens, names, the reading of a text, and the
// word at a fault.
#![tactic(auto)]

pub mod class;
pub mod flaw;
pub mod name;
pub mod reader;
pub mod token;
pub mod words;

pub use class::{Class, class_of};
pub use flaw::{Flaw, TEXT_MAX, with_length};
pub use name::{
    Alphabet, NAME_MAX, Name, Named, all_belong, is_identifier, is_name, number_in, position,
    to_name,
};
pub use reader::{TokenReader, read};
pub use token::{Token, Tokens, is_blank, is_byte, token_end};
pub use words::word;

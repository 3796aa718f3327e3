//! From texts to tokens, and from tokens to the steps of types and terms.
#![tactic(auto)]

pub mod grammar;
pub mod lexer;
mod piece_reader;
mod steps;
mod term_reader;
mod token;
pub mod type_reader;

pub use lexer::tokens_in;
pub use steps::TermStep;
pub use term_reader::parse_term;
pub use token::Token;
pub use type_reader::{ReadError, TypeStep};

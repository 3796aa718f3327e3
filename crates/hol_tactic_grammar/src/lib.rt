//! From tokens to conversions and refiner expressions, as data; and their quoted terms, read over a scope.
#![tactic(auto)]

mod conversion_words;
mod conversions;
mod expressions;
mod leaves;
mod quotes;
mod read_leaves;
mod tactic_reader;
mod tactic_words;
mod tactics;
mod tokens;
mod words;

pub use conversions::conversion_of;
pub use expressions::read_tactic;
pub use tactic_reader::tactic_of;
pub use words::meaning_in;

//! The printer of types, terms and sequents, and that its texts read back as themselves.
#![tactic(auto)]

mod innermost;
mod laws;
mod output;
mod printer;
mod shape;

pub use laws::{sequents_read_back, terms_read_back, types_read_back};
pub use printer::{push_sequent, text_of_goal, text_of_sequent, text_of_term, text_of_type};

//! First-order matching of a pattern with a term: which types and terms make the one the other.
#![tactic(auto)]

mod frames;
mod inside;
mod laws;
mod matching;
mod types;

pub use laws::{equations_match, fixed_variables_stay, matches_agree, matching_patterns_fit};
pub use matching::{Match, term_match};

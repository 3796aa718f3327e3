//! From steps to types, terms and sequents, over the names that are known.
#![tactic(auto)]

mod binders;
pub mod builder;
mod evaluate;
mod leaves;
mod quantifier;
mod scope;
mod sequents;
mod terms;
mod types;

pub use evaluate::term_of_steps;
pub use scope::Scope;
pub use sequents::{read_sequent, sequents_are_unambiguous};
pub use terms::{read_term, terms_are_unambiguous};
pub use types::{build_type, identifier, parse_type, read_type, types_are_unambiguous};

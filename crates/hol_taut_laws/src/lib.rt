//! The laws of the connectives at truth values from which tautologies are proved, made by a recorder from the theorems of the prelude.
#![tactic(auto)]

mod denial;
mod discharged;
mod disjunction;
mod law;
mod negations;
mod sides;
mod stages;
mod stored;
mod tables;

pub use hol_taut_formulas::Law;
pub use stored::{Laws, law_theorem, laws_stay, tautology_laws};

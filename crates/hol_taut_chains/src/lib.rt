//! Formulas whose chains of `<=>` are in normal form, without the parts that stand in them twice: a search for proofs of tautologies.
//! Each step is contracted as one of the recorder alone, so who takes its theorem judges it.
#![tactic(auto)]

mod chain_steps;
mod chains;
mod formula_terms;
mod law_terms;
mod negations;
mod pairs;
mod parts;
mod pulled;
mod shared;
mod sorted;
mod variables;

pub use chain_steps::{instance, reflexive};
pub use chains::{has_long_chain, sides_of};
pub use formula_terms::proposition;
pub use law_terms::{commuted, exchanged, negated_left, negated_right, negated_twice, paired};
pub use negations::{NegationLaws, has_negated_part, without_negations};
pub use parts::normal_form;
pub use pulled::ChainLaws;
pub use shared::without_shared;
pub use variables::without_chains;

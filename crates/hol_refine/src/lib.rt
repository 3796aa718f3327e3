//! The refiners without parts (HOL Light's tactics.ml). Those of a table make no theorem: it has what each leaves of a goal,
//! with its justification as data. CONV_TAC, REWRITE_TAC and TAUT_TAC prove a theorem on the way and keep it as a lemma, over
//! whatever converts.
#![tactic(auto)]

mod assumed;
mod cited;
mod conversions;
mod converting;
mod implications;
mod lemmas;
mod making;
mod names;
mod naming;
mod quantified;
mod quantifiers;
mod refining;
mod rows;
mod rules;
mod steps;
mod table;
mod tautologies;
mod theorems;

pub use converting::Conversions;
pub use refining::refine;

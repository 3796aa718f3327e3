//! Rewriting and conversions that a host may store, under HOL Light's names where it has them.
//!
//! A theorem to rewrite by travels in the goal as the left side of an implication, by `MP_TAC th`. Nothing is claimed of the answers,
//! since what refines a goal with them tests each before it is used. Each function is safe and ends.
#![tactic(auto)]

mod basic;
mod changed;
mod conversions;
mod redepth;
mod rewriting;
mod rules;

pub use conversions::{beta, beta_normal, unwind};
pub use rewriting::{asm_rewrite, rewrite};

//! Refiners that a host may store, under HOL Light's names where it has them: of a goal's outermost connective, by a formula that
//! travels in the goal, and by matching.
//!
//! A refiner sees the goal alone, so a theorem travels in it as the left side of an implication, by `MP_TAC th`, and a formula `p` as
//! `p <=> p`, by `MP_TAC` of its reflexivity. Nothing is claimed of the answers, since what refines a goal with them tests each
//! before it is used. Each function is safe and ends.
#![tactic(auto)]

mod carrying;
mod matching;
mod stripping;
mod witnesses;

pub use carrying::{cases, cut, spec_all, undisch};
pub use matching::{accept, asm_back, back};
pub use stripping::strip;
pub use witnesses::exists;

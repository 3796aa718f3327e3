//! Refiner expressions (Edinburgh LCF's tacticals, HOL Light's tactics.ml): THEN, THENL, ORELSE, REPEAT, TRY and a host's refiners,
//! over whatever refines by refiners without parts.
#![tactic(auto)]

mod frames;
mod leaves;
mod refining;
mod running;
mod splicing;

pub use leaves::Leaves;
pub use refining::refine_goal;

//! Rewriting: the equations that a theorem gives, the theorems that state them, and the first of a list of rules that applies
//! to a term, found by a net, with its instance.
#![tactic(auto)]

mod choice;
mod denial;
mod forms;
mod instances;
mod left_sides;
mod reduction;
mod renaming;
mod rewriting;
mod rules;

pub use choice::{Choice, LeftSide};
pub use left_sides::choice_of;
pub use rewriting::rewrite_at;
pub use rules::rules_of;

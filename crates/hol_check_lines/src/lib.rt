//! What a line of a proof log adds, or why it is refused.
#![tactic(auto)]

mod addition;
mod claim_lines;
mod entry_lines;
mod judge;
pub mod log;
mod named;
mod start;
mod step;
mod step_pairs;
pub mod take;
mod term_lines;
mod type_lines;

//! The log of a journal, pruned to what its claims need.
#![tactic(auto)]

mod claim;
mod connectives;
mod fitting;
mod hints;
mod lines;
mod log;
mod log_laws;
mod mentions;
mod needed;
mod numbers;
mod pruning;
mod writer;

pub use claim::Claim;
pub use log::log_text;
pub use log_laws::journal_logs_are_accepted;

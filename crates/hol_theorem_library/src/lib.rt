//! A recorder with what is stored beside it: what rules, conversions and refiners work on.
#![tactic(auto)]

mod laws;
mod library;

pub use laws::libraries_continue;
pub use library::Library;

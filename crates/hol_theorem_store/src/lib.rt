//! The theorems that justifications may name: under names, and as lemmas by their numbers.
#![tactic(auto)]

mod laws;
mod store;

pub use laws::stores_stay;
pub use store::Store;

//! Rules of the quantifiers, derived from the kernel's rules and the theorems of the prelude (HOL Light's `bool.ml`).
#![tactic(auto)]

mod elimination;
mod existence;
mod generalization;
mod instances;
mod parts;
mod specialization;

pub use elimination::choose;
pub use existence::exists;
pub use generalization::generalize;
pub use parts::{Quantified, quantified_parts};
pub use specialization::spec;

//! Conversions (Paulson's, as HOL Light's `equal.ml` has them): those of one step, and the rules by which their theorems are
//! joined; their expressions tried on terms, within steps, over whatever tries those without parts; and over a library, with
//! a host's conversions or with rules alone.
#![tactic(auto)]

mod applying;
mod by_rules;
mod chain;
mod conversions;
mod converted;
mod converting;
mod hosts;
mod joins;
mod leaves;
mod over_host;
mod parts;
mod prepared;
mod preparing;

pub use applying::{apply, rewrite};
pub use converting::convert;
pub use leaves::{Leaves, Made};

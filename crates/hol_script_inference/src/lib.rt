//! What `thm` asks for: rules, tautologies and conversions over a session, and the row of values of a refused tautology.
#![tactic(auto, using(hol_model::proofs::Kernel::Refusals::refusals))]

mod conversions;
mod instances;
mod named_rules;
mod rows;
mod tautologies;
mod theorems;

pub use hol_conv::{apply, rewrite};
pub use hol_script_session::reply::{Printed, Refused, plainly};
pub use hol_script_session::session::Session;
pub use theorems::thm;

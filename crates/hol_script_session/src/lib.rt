//! Sessions: the theorems stored under their names, what names stand for, definitions and declarations, and the log of the
//! theorems that are named.
#![tactic(auto, using(hol_model::proofs::Kernel::Refusals::refusals))]

mod beginning;
mod growth;
mod known;
mod lines;
pub mod reply;
pub mod session;
mod stored_claims;

pub use growth::libraries_grow;

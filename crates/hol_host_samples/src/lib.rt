//! Refiners and conversions that a host may store: what the program hands to its scripts, and a sample for hosts of one's own.
//!
//! Nothing is claimed of their answers: what refines a goal with them tests each answer before it is used.
#![tactic(auto)]

mod conversions;
mod forms;
mod host;
mod refiners;

pub use host::{CONVERSIONS, Conversion, REFINERS, Refiner, SAMPLES, Samples};
pub use refiners::peel;

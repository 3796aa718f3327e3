//! The refiners and conversions of this layer, as a host.
//!
//! Nothing is claimed of their answers: what refines a goal with them tests each answer before it is used.
#![tactic(auto)]

mod host;

pub use host::{CONVERSIONS, Conversion, REFINERS, Refiner, TACTICS, Tactics};

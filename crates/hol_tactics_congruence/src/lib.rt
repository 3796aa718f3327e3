//! Congruence closure, as a refiner that a host may store.
//!
//! Nothing is claimed of its answer, since what refines a goal with it tests the answer before it is used. Each function is safe and
//! ends.
#![tactic(auto)]

mod congruence;

pub use congruence::eq;

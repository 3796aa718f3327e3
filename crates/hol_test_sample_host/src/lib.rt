//! Functions of the host of tests: what no step is, what finds no memory, what proves something else or too much, and what shares or nests as far as it may.
//!
//! Nothing is claimed of their answers: what refines a goal with them tests each answer before it is used.
#![tactic(auto)]

mod host_functions;
mod samples;

pub use samples::{SAMPLES, Samples};

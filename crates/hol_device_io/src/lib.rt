//! Whole inputs and whole pieces of output over the devices.
#![tactic(auto, using(hol_model::proofs::Kernel::Refusals::refusals))]

mod bytes;

pub use bytes::{read_all, write_all, write_pieces};

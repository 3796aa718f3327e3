//! MESON_TAC: a goal from its assumptions by first-order reasoning with equality.
//!
//! Nothing is claimed of what it answers: what refines a goal with it tests the answer before it is used. It is safe and ends.
#![tactic(auto)]

mod facts;
mod meson_tac;
mod rebuilding;
mod reducing;
mod splitting;
mod values;
mod witnesses;

pub use meson_tac::meson;

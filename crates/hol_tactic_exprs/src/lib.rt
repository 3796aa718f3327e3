//! Conversions and refiners as data, generic in what stands for a quoted term, and the steps that they may spend.
#![tactic(auto)]

mod conv;
mod fuel;
mod leaf;
mod making;
mod tac;

pub use conv::{Conv, Prefix};
pub use fuel::{Fuel, is_caught};
pub use leaf::Leaf;
pub use making::name_copies;
pub use tac::{Link, Tac};

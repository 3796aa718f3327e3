//! Functions that a host stores under names: refiners and conversions. Of what they answer nothing is assumed.
#![tactic(auto)]

mod beside;
mod conversions;
mod functions;
mod host;
mod names;
mod table;

pub use beside::Beside;
pub use conversions::{Converter, HostConvs};
pub use functions::{Converters, Equated, HostFail, NoHost, Refiners};
pub use host::{Host, Refiner};
pub use table::{Converts, Refines, Table, named};

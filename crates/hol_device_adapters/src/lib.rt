//! Bytes in memory, and calls that read or write, as devices, which fail only where what they wrap does.
#![tactic(auto)]

mod from_call;
mod from_read;
mod into_call;
mod into_write;
mod reader;
mod writer;

pub use from_call::{FromCall, ReadCall};
pub use from_read::FromRead;
pub use into_call::{IntoCall, WriteCall};
pub use into_write::IntoWrite;
pub use reader::Reader;
pub use writer::Writer;

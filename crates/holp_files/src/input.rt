// What a command reads: a file, or standard input.

use std::fs::{self, File};
use std::io::{self, Read};
use std::rt::Stdin;

/// A file, or standard input.
#[derive(Drop)]
pub enum Input {
    File(File),
    Standard(Stdin),
}

impl Input {
    /// Opens the file of this name; `-` names standard input.
    pub fn open(rt: &HostRuntime, name: &str) -> io::Result<Input> {
        if name == "-" {
            return Ok(Input::Standard(rt.stdin()));
        }
        Ok(Input::File(fs::open(rt, name)?))
    }

    /// Reads as what it is reads.
    pub fn read(&mut self, buf: &mut [u8]) -> io::Result<usize> {
        match self {
            Input::File(file) => file.read(buf),
            Input::Standard(input) => input.read(buf),
        }
    }
}

#[cfg(test)]
mod tests {
    use super::*;

    #[test]
    fn a_dash_names_standard_input(rt: HostRuntime) {
        assert!(rt; matches!(Input::open(&rt, "-"), Ok(Input::Standard(_))));
        assert!(rt; Input::open(&rt, "no/such/file").is_err());
    }
}

// What stands in a file that is to be written anew.

use std::fs;
use std::io::{self, Read};

// The bytes at the front of each proof log.
const FRONT: [u8; 8] = *b"holp-log";

// Whether the file of this name begins as a proof log does; an error where it is too short for that.
fn begins_as_log(rt: &HostRuntime, name: &str) -> io::Result<bool> {
    let mut front = [0u8; 8];
    fs::open(rt, name)?.read_exact(&mut front)?;
    Ok(front == FRONT)
}

/// Whether a regular file of this name, or the one that a link of this name leads to, holds bytes that are not seen to begin as a
/// proof log does. What is no regular file, as a device or a pipe, is not opened, and an empty file holds nothing.
pub fn holds_no_log(rt: &HostRuntime, name: &str) -> bool {
    match fs::metadata(rt, name) {
        Ok(found) => {
            found.is_file() && found.len() > 0 && !matches!(begins_as_log(rt, name), Ok(true))
        }
        Err(_) => false,
    }
}

#[cfg(test)]
mod tests {
    use super::*;

    #[test]
    fn what_is_no_regular_file_holds_nothing(rt: HostRuntime) {
        assert!(rt; !holds_no_log(&rt, "no/such/file"));
        assert!(rt; !holds_no_log(&rt, "/"));
        assert!(rt; !holds_no_log(&rt, "/dev/full"));
    }

    #[test]
    fn a_program_is_no_log(rt: HostRuntime) {
        assert!(rt; holds_no_log(&rt, "/proc/self/exe"));
    }
}

// The standard descriptors of a program.

use std::mem::forget;
use std::os::fd::AsRawFd;
use std::{fs, io};

// The highest number of a standard descriptor, that of standard error.
const LAST: i32 = 2;

/// Takes the number of each standard descriptor that is closed, for as long as the program runs, so that no file that it opens
/// later stands where its input or its output is sought. What is opened there is a directory: each read and write of it fails.
pub fn hold_standard_descriptors(rt: &HostRuntime) -> io::Result<()> {
    for _ in 0..=LAST {
        let held = fs::open(rt, "/")?;
        if held.as_raw_fd() > LAST {
            return Ok(());
        }
        forget(held);
    }
    Ok(())
}

#[cfg(test)]
mod tests {
    use super::*;

    #[test]
    fn open_descriptors_are_left_alone(rt: HostRuntime) {
        assert!(rt; hold_standard_descriptors(&rt).is_ok());
        assert!(rt; matches!(fs::open(&rt, "/"), Ok(file) if file.as_raw_fd() > LAST));
    }
}

// Sinks that keep what they take.
ghost use Rattle.std.specs.Prelude.{◌≡◌, false};

use hol_model::{DeviceFail, Sink};
use std::alloc::Global;

/// A sink that keeps what it takes, and fails once as many bytes are taken as it had room for.
#[derive(Drop)]
pub struct Kept {
    pub bytes: Vec<u8>,
    room: usize,
    failed: bool,
}

impl Kept {
    /// A sink that has taken nothing, with room for whatever comes.
    pub fn new(alloc: Global) -> Kept
        ensures { result.failed ≡ false }
    {
        Kept::with_room(alloc, usize::MAX)
    }

    /// A sink that has taken nothing, with room for so many bytes.
    pub fn with_room(alloc: Global, room: usize) -> Kept
        ensures { result.failed ≡ false }
    {
        Kept {
            bytes: Vec::new(alloc),
            room,
            failed: false,
        }
    }
}

impl Sink for Kept {
    ghost has_failed = { λ s. s.failed };

    fn emit(&mut self, piece: &[u8]) -> Result<usize, DeviceFail> {
        let count = self.room.min(piece.len());
        match self.bytes.extend_from_slice(&piece[..count]) {
            Ok(()) if count > 0 || piece.is_empty() => {
                self.room -= count;
                Ok(count)
            }
            _ => {
                self.failed = true;
                Err(DeviceFail)
            }
        }
    }

    fn failed(&self) -> bool {
        self.failed
    }
}

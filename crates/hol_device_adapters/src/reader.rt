// Readers of std that tell what their calls may answer.
ghost use Rattle.std.specs.Prelude.{ℕ, Option, IsSome};
ghost use Rattle.std.specs.Result.{result_ok};
ghost use Rattle.std.specs.Io.{ReadsAtMost};
ghost use Rattle.std.specs.Io.KnownBytes.{ReadConsumes};

use std::io::{self, Read};

/// A reader that tells what its calls may answer, failures too.
pub trait Reader: Read {
    /// Whether a call may answer this number of bytes, or fail (`None`), and leave the reader so.
    ghost read_gives: { Self → Option ℕ → Self → Type 0 };

    /// Reads as `read` does.
    fn read_some(&mut self, buf: &mut [u8]) -> io::Result<usize>
        ensures bound { ReadsAtMost result buf.new }
        ensures bytes { ReadConsumes (Self.remaining self.old) (Self.remaining self.new) result buf.new }
        ensures gives { read_gives self.old (result_ok result) self.new };
}

// Of bytes in memory no call fails.
impl Reader for &[u8] {
    ghost read_gives = { λ _ answer _. IsSome answer };

    fn read_some(&mut self, buf: &mut [u8]) -> io::Result<usize> {
        self.read(buf)
    }
}

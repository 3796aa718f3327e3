// Writers of std that tell what their calls may answer.
ghost use Rattle.std.specs.Prelude.{◌≡◌, ℕ, ◌+◌, ◌<◌, List, length, Option, MatchOption};
ghost use Rattle.std.specs.Result.{result_ok};
ghost use Rattle.std.specs.Vec.{vec_len, vec_capacity};
ghost use Rattle.std.specs.Io.{WritesAtMost};
ghost use Rattle.std.specs.Io.KnownBytes.{WriteAppends};

use std::alloc::Allocator;
use std::io::{self, Write};

/// A writer that tells what its calls may answer, failures too.
pub trait Writer: Write {
    /// Whether a call with this piece may answer this number of bytes, or fail (`None`), and leave the writer so.
    ghost write_gives: { Self → List ℕ → Option ℕ → Self → Type 0 };

    /// Writes as `write` does.
    fn write_some(&mut self, piece: &[u8]) -> io::Result<usize>
        ensures bound { WritesAtMost result piece.now }
        ensures bytes { WriteAppends (Self.contents self.old) (Self.contents self.new) result piece.now }
        ensures gives { write_gives self.old piece.now (result_ok result) self.new };
}

// Memory takes the whole piece; it fails only where the room that it has does not do, and more is refused.
impl<A: Allocator> Writer for Vec<u8, A> {
    ghost write_gives = { λ vec piece answer _. MatchOption answer (vec_capacity vec < vec_len vec + length piece) (λ n. n ≡ length piece) };

    fn write_some(&mut self, piece: &[u8]) -> io::Result<usize> {
        self.extend_from_slice(piece)?;
        Ok(piece.len())
    }
}

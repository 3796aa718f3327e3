// Writers of std as sinks.
ghost use Rattle.std.specs.Prelude.{◌≡◌, ◌≢◌, ◌||◌, ◌⊎◌, false, [], None, Some, is_err, IfOk, OnErr};
ghost use Rattle.std.specs.Io.{WritesAtMost};
ghost use Rattle.std.specs.Io.KnownBytes.{WriteAppends};

use crate::Writer;
use hol_model::{DeviceFail, Sink};

/// A writer of std as a sink.
#[derive(Drop)]
pub struct IntoWrite<W: Writer + Drop> {
    writer: W,
    failed: bool,
}

impl<W: Writer + Drop> IntoWrite<W> {
    /// A sink over a writer. It tells the bytes that the writer tells.
    pub fn new(writer: W) -> IntoWrite<W>
        ensures bytes { ⟦<IntoWrite<W> as Sink>⟧.contents result ≡ W.contents writer }
        ensures unfailed { ⟦<IntoWrite<W> as Sink>⟧.has_failed result ≡ false }
    {
        IntoWrite {
            writer,
            failed: false,
        }
    }
}

impl<W: Writer + Drop> Sink for IntoWrite<W> {
    ghost contents = { λ s. W.contents s.writer };

    ghost has_failed = { λ s. s.failed };

    // One call of the writer, and its answer; but where the writer takes none of a non-empty piece, a failure.
    fn emit(&mut self, piece: &[u8]) -> Result<usize, DeviceFail>
        ensures bound { WritesAtMost result piece.now }
        ensures bytes { WriteAppends (W.contents self.old.writer) (W.contents self.new.writer) result piece.now }
        ensures some { IfOk result (λ n. n ≡ 0 → piece.now ≡ []) }
        ensures failure { self.new.failed ≡ (self.old.failed || is_err result) }
        ensures gives { IfOk result (λ n. W.write_gives self.old.writer piece.now (Some n) self.new.writer) }
        ensures fails { OnErr result (W.write_gives self.old.writer piece.now None self.new.writer
            ⊎ ((piece.now ≢ []) × W.write_gives self.old.writer piece.now (Some 0) self.new.writer)) }
    {
        match self.writer.write_some(piece) {
            Ok(n) if n > 0 || piece.is_empty() => Ok(n),
            _ => {
                self.failed = true;
                Err(DeviceFail)
            }
        }
    }

    fn failed(&self) -> bool {
        self.failed
    }
}

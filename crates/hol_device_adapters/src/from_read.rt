// Readers of std as sources.
ghost use Rattle.std.specs.Prelude.{◌≡◌, ◌||◌, false, is_err};
ghost use Rattle.std.specs.Result.{result_ok};
ghost use Rattle.std.specs.Io.{ReadsAtMost};
ghost use Rattle.std.specs.Io.KnownBytes.{ReadConsumes};

use crate::Reader;
use hol_model::{DeviceFail, Source};

/// A reader of std as a source.
#[derive(Drop)]
pub struct FromRead<R: Reader + Drop> {
    reader: R,
    failed: bool,
}

impl<R: Reader + Drop> FromRead<R> {
    /// A source over a reader. It tells the bytes that the reader tells.
    pub fn new(reader: R) -> FromRead<R>
        ensures bytes { ⟦<FromRead<R> as Source>⟧.remaining result ≡ R.remaining reader }
        ensures unfailed { ⟦<FromRead<R> as Source>⟧.has_failed result ≡ false }
    {
        FromRead {
            reader,
            failed: false,
        }
    }
}

impl<R: Reader + Drop> Source for FromRead<R> {
    ghost remaining = { λ s. R.remaining s.reader };

    ghost has_failed = { λ s. s.failed };

    // One call of the reader, and its answer.
    fn pull(&mut self, buf: &mut [u8]) -> Result<usize, DeviceFail>
        ensures bound { ReadsAtMost result buf.new }
        ensures bytes { ReadConsumes (R.remaining self.old.reader) (R.remaining self.new.reader) result buf.new }
        ensures failure { self.new.failed ≡ (self.old.failed || is_err result) }
        ensures gives { R.read_gives self.old.reader (result_ok result) self.new.reader }
    {
        match self.reader.read_some(buf) {
            Ok(n) => Ok(n),
            Err(_) => {
                self.failed = true;
                Err(DeviceFail)
            }
        }
    }

    fn failed(&self) -> bool {
        self.failed
    }
}

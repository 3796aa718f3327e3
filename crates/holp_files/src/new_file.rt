// A file that is made once there are bytes for it.
ghost use Rattle.std.specs.Prelude.{◌≡◌, [], false, IfOk};
ghost use Rattle.std.specs.Io.{WritesAtMost};

use hol_model::{DeviceFail, Sink};
use std::fs::{self, File};
use std::io::Write;

/// A sink that makes the file of its name when the first bytes come.
#[derive(Drop)]
pub struct NewFile<'a> {
    rt: &'a HostRuntime,
    name: &'a str,
    file: Option<File>,
    failed: bool,
}

impl NewFile<'_> {
    /// The sink for a file of this name, which is not made yet.
    pub fn new<'a>(rt: &'a HostRuntime, name: &'a str) -> NewFile<'a>
        ensures { result.failed ≡ false }
    {
        NewFile {
            rt,
            name,
            file: None,
            failed: false,
        }
    }

    // The file, made where it is not there yet.
    fn opened(&mut self) -> Result<File, DeviceFail>
        ensures { self.new.failed ≡ self.old.failed }
    {
        match self.file.take() {
            Some(file) => Ok(file),
            None => match fs::create(self.rt, self.name) {
                Ok(file) => Ok(file),
                Err(_) => Err(DeviceFail),
            },
        }
    }

    // Bytes from the front of a piece, which the file takes.
    fn take(&mut self, piece: &[u8]) -> Result<usize, DeviceFail>
        ensures bound { WritesAtMost result piece.now }
        ensures some { IfOk result (λ n. n ≡ 0 → piece.now ≡ []) }
        ensures kept { self.new.failed ≡ self.old.failed }
    {
        let mut file = self.opened()?;
        match file.write(piece) {
            Ok(count) if count > 0 || piece.is_empty() => {
                self.file = Some(file);
                Ok(count)
            }
            _ => Err(DeviceFail),
        }
    }
}

impl Sink for NewFile<'_> {
    ghost has_failed = { λ s. s.failed };

    fn emit(&mut self, piece: &[u8]) -> Result<usize, DeviceFail> {
        let taken = self.take(piece);
        if taken.is_err() {
            self.failed = true;
        }
        taken
    }

    fn failed(&self) -> bool {
        self.failed
    }
}

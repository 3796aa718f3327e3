// Sources that do not end, or break off.
ghost use Rattle.std.specs.Prelude.{◌≡◌, false};

use hol_model::{DeviceFail, Source};

/// A source of line feeds without an end.
#[derive(Drop)]
pub struct Endless;

impl Source for Endless {
    ghost has_failed = { λ _. false };

    fn pull(&mut self, buf: &mut [u8]) -> Result<usize, DeviceFail> {
        buf.fill(b'\n');
        Ok(buf.len())
    }

    fn failed(&self) -> bool {
        false
    }
}

/// A source that gives the bytes of a text one by one, and fails in the call behind so many of them.
#[derive(Drop)]
pub struct Drips<'a> {
    rest: &'a [u8],
    left: usize,
    failed: bool,
}

impl<'a> Drips<'a> {
    /// A source that has not been called. It does not fail where it has fewer bytes to give.
    pub fn new(text: &'a [u8], left: usize) -> Drips<'a>
        ensures { result.failed ≡ false }
    {
        Drips {
            rest: text,
            left,
            failed: false,
        }
    }
}

impl Source for Drips<'_> {
    ghost has_failed = { λ s. s.failed };

    fn pull(&mut self, buf: &mut [u8]) -> Result<usize, DeviceFail> {
        let Some((byte, rest)) = self.rest.split_first() else {
            return Ok(0);
        };
        let Some(place) = buf.first_mut() else {
            return Ok(0);
        };
        if self.left == 0 {
            self.failed = true;
            return Err(DeviceFail);
        }
        *place = *byte;
        self.left -= 1;
        self.rest = rest;
        Ok(1)
    }

    fn failed(&self) -> bool {
        self.failed
    }
}

// A text as a source.
ghost use Rattle.std.specs.Prelude.{false, Some};

use hol_model::{DeviceFail, Source};
use std::cmp::min;

/// A source of the bytes of a text. It does not fail.
#[derive(Drop)]
pub(crate) struct TextSource<'a> {
    pub rest: &'a [u8],
}

impl<'a> Source for TextSource<'a> {
    ghost remaining = { λ s. Some s.rest.now };

    ghost has_failed = { λ s. false };

    fn pull(&mut self, buf: &mut [u8]) -> Result<usize, DeviceFail> {
        let count = min(self.rest.len(), buf.len());
        let (front, behind) = self.rest.split_at(count);
        buf[..count].copy_from_slice(front);
        self.rest = behind;
        Ok(count)
    }

    fn failed(&self) -> bool {
        false
    }
}

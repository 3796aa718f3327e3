// The devices that a run reads from.
ghost use Rattle.std.specs.Prelude.{◌≡◌, ◌||◌, Bool, ℕ, List, Option, None, is_err};
ghost use Rattle.std.specs.Io.{ReadsAtMost};
ghost use Rattle.std.specs.Io.KnownBytes.{ReadConsumes};

use crate::DeviceFail;

/// A device that gives bytes.
pub trait Source {
    /// The bytes that it has still to give, where it tells them.
    ghost remaining: { Self → Option (List ℕ) } = { λ _. None };

    /// Whether a call has failed.
    ghost has_failed: { Self → Bool };

    /// Puts bytes at the front of `buf`, and says how many. It gives none only at the end or with no room.
    fn pull(&mut self, buf: &mut [u8]) -> Result<usize, DeviceFail>
        ensures bound { ReadsAtMost result buf.new }
        ensures bytes { ReadConsumes (remaining self.old) (remaining self.new) result buf.new }
        ensures failure { has_failed self.new ≡ (has_failed self.old || is_err result) };

    /// Whether a call has failed.
    fn failed(&self) -> bool
        ensures { result ≡ has_failed self.now };
}

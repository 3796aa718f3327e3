// The devices that a run writes to.
ghost use Rattle.std.specs.Prelude.{◌≡◌, ◌||◌, Bool, ℕ, List, [], Option, None, is_err, IfOk};
ghost use Rattle.std.specs.Io.{WritesAtMost};
ghost use Rattle.std.specs.Io.KnownBytes.{WriteAppends};

use crate::DeviceFail;

/// A device that takes bytes.
pub trait Sink {
    /// The bytes that it has taken, where it tells them.
    ghost contents: { Self → Option (List ℕ) } = { λ _. None };

    /// Whether a call has failed.
    ghost has_failed: { Self → Bool };

    /// Takes bytes from the front of `piece`, and says how many. It takes none only of an empty piece.
    fn emit(&mut self, piece: &[u8]) -> Result<usize, DeviceFail>
        ensures bound { WritesAtMost result piece.now }
        ensures bytes { WriteAppends (contents self.old) (contents self.new) result piece.now }
        ensures some { IfOk result (λ n. n ≡ 0 → piece.now ≡ []) }
        ensures failure { has_failed self.new ≡ (has_failed self.old || is_err result) };

    /// Whether a call has failed.
    fn failed(&self) -> bool
        ensures { result ≡ has_failed self.now };
}

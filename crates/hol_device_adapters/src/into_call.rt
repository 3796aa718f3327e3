// Calls that write as sinks.
ghost use Rattle.std.specs.Prelude.{◌≡◌, ◌≢◌, ◌⊎◌, ◌<◌, ◌||◌, [], length, false, None, Ok, Err, is_err, IfOk, OnErr};
ghost use Rattle.std.specs.Fn.{CalledAt};
ghost use Rattle.std.specs.Io.{WritesAtMost};
ghost use Rattle.std.specs.Io.KnownBytes.{WriteAppends};

use hol_model::{DeviceFail, Sink};
use std::io;

/// A call that writes: it takes bytes from the front of the piece, and says how many.
pub type WriteCall = Box<dyn FnMut(&[u8]) -> io::Result<usize>>;

/// A call that writes, as a sink. It fails only where the call does, or says that it took more than there was or none of a
/// piece that is not empty.
#[derive(Drop)]
pub struct IntoCall {
    call: WriteCall,
    failed: bool,
    ghost callable: { WriteCall.IsAlwaysCallable call },
}

impl IntoCall {
    /// A sink over a call, which may be called on any piece. It tells no bytes.
    pub fn new(call: WriteCall) -> IntoCall
        requires callable { IsAlwaysCallable call }
        ensures call { result.call ≡ call }
        ensures unfailed { result.failed ≡ false }
    {
        IntoCall {
            call,
            failed: false,
        }
    }
}

impl Sink for IntoCall {
    ghost has_failed = { λ s. s.failed };

    // One call, and its answer; but a number past the piece, or none of a non-empty piece, is a failure.
    fn emit(&mut self, piece: &[u8]) -> Result<usize, DeviceFail>
        ensures bound { WritesAtMost result piece.now }
        ensures bytes { WriteAppends None None result piece.now }
        ensures some { IfOk result (λ n. n ≡ 0 → piece.now ≡ []) }
        ensures failure { self.new.failed ≡ (self.old.failed || is_err result) }
        ensures gives { IfOk result (λ n. CalledAt WriteCall.FnMut self.old.call piece.now (Ok n) self.new.call) }
        ensures fails { OnErr result
            (((e : _) × CalledAt WriteCall.FnMut self.old.call piece.now (Err e) self.new.call)
            ⊎ ((piece.now ≢ []) × CalledAt WriteCall.FnMut self.old.call piece.now (Ok 0) self.new.call)
            ⊎ ((n : _) × (length piece.now < n) × CalledAt WriteCall.FnMut self.old.call piece.now (Ok n) self.new.call)) }
    {
        match (self.call)(piece) {
            Ok(n) if n <= piece.len() && (n > 0 || piece.is_empty()) => Ok(n),
            _ => {
                self.failed = true;
                Err(DeviceFail)
            }
        }
    }

    fn failed(&self) -> bool {
        self.failed
    }
}

// Calls that read as sources.
ghost use Rattle.std.specs.Prelude.{◌≡◌, ◌⊎◌, ◌<◌, ◌||◌, length, false, None, Ok, Err, is_err, IfOk, OnErr};
ghost use Rattle.std.specs.Fn.{CalledAtMut};
ghost use Rattle.std.specs.Io.{ReadsAtMost};
ghost use Rattle.std.specs.Io.KnownBytes.{ReadConsumes};

use hol_model::{DeviceFail, Source};
use std::io;

/// A call that reads: it may put bytes at the front of the buffer, and says how many.
pub type ReadCall = Box<dyn FnMut(&mut [u8]) -> io::Result<usize>>;

/// A call that reads, as a source. It fails only where the call does, or says that it put more than the buffer has room for.
#[derive(Drop)]
pub struct FromCall {
    call: ReadCall,
    failed: bool,
    ghost callable: { ReadCall.IsAlwaysCallable call },
}

impl FromCall {
    /// A source over a call, which may be called on any buffer. It tells no bytes.
    pub fn new(call: ReadCall) -> FromCall
        requires callable { IsAlwaysCallable call }
        ensures call { result.call ≡ call }
        ensures unfailed { result.failed ≡ false }
    {
        FromCall {
            call,
            failed: false,
        }
    }
}

impl Source for FromCall {
    ghost has_failed = { λ s. s.failed };

    // One call, and its answer; but a number past the buffer is a failure.
    fn pull(&mut self, buf: &mut [u8]) -> Result<usize, DeviceFail>
        ensures bound { ReadsAtMost result buf.new }
        ensures bytes { ReadConsumes None None result buf.new }
        ensures failure { self.new.failed ≡ (self.old.failed || is_err result) }
        ensures gives { IfOk result (λ n. CalledAtMut ReadCall.FnMut self.old.call buf.old (Ok n) self.new.call buf.new) }
        ensures fails { OnErr result
            (((e : _) × CalledAtMut ReadCall.FnMut self.old.call buf.old (Err e) self.new.call buf.new)
            ⊎ ((n : _) × (length buf.new < n) × CalledAtMut ReadCall.FnMut self.old.call buf.old (Ok n) self.new.call buf.new)) }
    {
        match (self.call)(buf) {
            Ok(n) if n <= buf.len() => Ok(n),
            _ => {
                self.failed = true;
                Err(DeviceFail)
            }
        }
    }

    fn failed(&self) -> bool {
        self.failed
    }
}

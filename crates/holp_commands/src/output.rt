// The standard output of a run.
ghost use Rattle.std.specs.Prelude.{◌≡◌, ◌≤◌, length, false, IfSome};

use crate::refusals::Refusals;
use hol_explain::Origin;
use hol_model::{DeviceFail, Sink};
use holp_goals::View;
use std::alloc::Global;
use std::cell::RefCell;
use std::io::Write;
use std::rt::Stdout;

/// Standard output, as a sink. What it takes is watched for refusals, and shown by a view, where there is one.
#[derive(Drop)]
pub(crate) struct Output<'a> {
    stdout: Stdout,
    refusals: Refusals<'a>,
    view: Option<&'a RefCell<View>>,
    alloc: Global,
    failed: bool,
}

// What a view shows of a piece. None: there is no memory.
fn shown_by(alloc: Global, view: &RefCell<View>, piece: &[u8]) -> Option<Vec<u8>> {
    let mut view = view.try_borrow_mut().ok()?;
    let mut shown = Vec::new(alloc);
    view.show(alloc, piece, &mut shown).ok()?;
    Some(shown)
}

impl Output<'_> {
    /// The standard output of a run whose lines come from these scripts, through this view; of no scripts, no refusal is told.
    pub(crate) fn new<'a>(
        rt: &HostRuntime,
        origins: &'a [Origin<'a>],
        view: Option<&'a RefCell<View>>,
    ) -> Output<'a>
        ensures { result.failed ≡ false }
    {
        Output {
            stdout: rt.stdout(),
            refusals: Refusals::new(rt, origins),
            view,
            alloc: rt.alloc(),
            failed: false,
        }
    }

    // Writes what a view shows of a piece, where there is one, or the piece, and answers how much of the piece was taken. None: the
    // output has failed, or there is no memory.
    fn write(&mut self, piece: &[u8]) -> Option<usize>
        ensures failed { self.new.failed ≡ self.old.failed }
        ensures bound { IfSome result (λ taken. taken ≤ length piece.now) }
    {
        let Some(view) = self.view else {
            return self.stdout.write(piece).ok();
        };
        let shown = shown_by(self.alloc, view, piece)?;
        self.stdout.write_all(&shown).ok()?;
        Some(piece.len())
    }
}

impl Sink for Output<'_> {
    ghost has_failed = { λ s. s.failed };

    fn emit(&mut self, piece: &[u8]) -> Result<usize, DeviceFail> {
        let taken = match self.write(piece) {
            Some(taken) => taken,
            None => 0,
        };
        if taken == 0 && !piece.is_empty() {
            self.failed = true;
            return Err(DeviceFail);
        }
        self.refusals.watch(&piece[..taken]);
        Ok(taken)
    }

    fn failed(&self) -> bool {
        self.failed
    }
}

// What a run leaves.
ghost use Rattle.std.specs.Prelude.{◌≡◌};
ghost use Rattle.hol_script.specs.Runs.{if_logged};

use crate::progress::Progress;
use hol_model::Fault;

/// What a run has come to, and what became of the log that it was asked for: it was written, or is refused TooLong, Memory or
/// WriteFault.
#[derive(Drop)]
pub struct Ended {
    pub progress: Progress,
    pub logged: Result<(), Fault>,
}

impl Ended {
    /// What the run has come to, where its log, if one was asked for, was written. Refused: as the log.
    pub fn whole(self) -> Result<Progress, Fault>
        ensures { result ≡ if_logged self.logged self.progress }
    {
        let Ended { progress, logged } = self;
        logged?;
        Ok(progress)
    }
}

// How far a run has come.
ghost use Rattle.std.specs.Prelude.{◌≡◌, ◌≤◌, ◌<◌, ◌+◌, ◌^◌, ◌++◌, ◌∷◌, [], Some, OnOk, IfOk, IfErr, IsErrOf, Contains, vec_len, vec_capacity};
ghost use Rattle.hol_model_sessions.specs.ScriptSessions.{start};
ghost use Rattle.hol_model_sessions.specs.SessionCalls.{Turns};
ghost use Rattle.hol_model.specs.declared.fault.Fault.TheVariants.{Memory, TooLong};
ghost use Rattle.hol_journal_log.specs.Pruning.{HaveIdentifiers};
ghost use Rattle.hol_script_manager.specs.Session.{session_tools, Says};
ghost use Rattle.hol_script.specs.Runs.{counts_of, counting_answer, names_of, names_in_answer};
ghost use Rattle.hol_script.specs.RunLogs.{journal_of, claims_stored, claims_listed};
ghost use Rattle.hol_script_manager.specs.Managers.{state_of, IsManager};
ghost use Rattle.hol_script_manager.specs.Session.{IsAcceptedLog, IsLongLog};

use crate::execute::execute;
use hol_host::Refiners;
use hol_model::Fault;
use hol_script_manager::{Manager, Printed, Refused};
use std::alloc::Global;

/// How many commands were accepted and refused, and how many theorems were printed.
#[derive(Clone, Copy, PartialEq, Eq)]
pub struct Summary {
    pub accepted: u64,
    pub refused: u64,
    pub printed: u64,
}

/// How far a run has come: its proof manager, the names in the lines of theorems that it printed, and what it counted.
#[derive(Drop)]
pub struct Progress {
    pub manager: Manager,
    pub names: Vec<String>,
    pub summary: Summary,
}

impl Summary {
    // The summary after one more answer.
    fn counting(&self, answer: &Result<Printed, Refused>) -> Summary
        requires accepted { self.now.accepted < 2 ^ 63 }
        requires refused { self.now.refused < 2 ^ 63 }
        requires printed { self.now.printed < 2 ^ 63 }
        ensures counts { counts_of result ≡ counting_answer (counts_of self.now) answer.now }
        ensures accepted { result.accepted ≤ self.now.accepted + 1 }
        ensures refused { result.refused ≤ self.now.refused + 1 }
        ensures printed { result.printed ≤ self.now.printed + 1 }
    {
        match answer {
            Ok(Printed::Nothing) => Summary {
                accepted: self.accepted + 1,
                refused: self.refused,
                printed: self.printed,
            },
            Ok(Printed::Goals(_)) => Summary {
                accepted: self.accepted + 1,
                refused: self.refused,
                printed: self.printed,
            },
            Ok(Printed::Line(_)) => Summary {
                accepted: self.accepted + 1,
                refused: self.refused,
                printed: self.printed + 1,
            },
            Err(_) => Summary {
                accepted: self.accepted,
                refused: self.refused + 1,
                printed: self.printed,
            },
        }
    }
}

impl Progress {
    /// Where a run begins.
    pub fn new(alloc: Global) -> Result<Progress, Fault>
        ensures state { IfOk result (λ progress. state_of progress.manager ≡ start) }
        ensures is_manager { IfOk result (λ progress. IsManager progress.manager) }
        ensures names { IfOk result (λ progress. names_of progress ≡ []) }
        ensures summary { IfOk result (λ progress. progress.summary ≡ record { accepted = 0; refused = 0; printed = 0 }) }
        ensures err { IfErr result (λ fault. fault ≡ Memory) }
    {
        let manager = Manager::new(alloc)?;
        Ok(Progress {
            manager,
            names: Vec::new(alloc),
            summary: Summary {
                accepted: 0,
                refused: 0,
                printed: 0,
            },
        })
    }

    /// Lets go of what a log is written from, where none is wanted. No contract sees a change.
    pub fn keep_journal_if(&mut self, wants_log: bool)
        ensures { self.new ≡ self.old }
    {
        if !wants_log {
            self.manager.forget_journal();
        }
    }

    /// Answers a command, which may call a host's functions. Where the name of a theorem would find no room, the command is
    /// refused.
    pub fn answer<H: Refiners>(
        &mut self,
        alloc: Global,
        host: &H,
        text: &[u8],
    ) -> Result<Printed, Refused>
        requires { IsManager self.old.manager }
        ensures turns { Turns (session_tools (H.refiners host.now) (H.conversions host.now)) (state_of self.old.manager) (Some text.now) (Says result) (state_of self.new.manager) }
        ensures kept { IsManager self.new.manager }
        ensures names { names_of self.new ≡ names_of self.old }
        ensures room { OnOk result (vec_len self.new.names < vec_capacity self.new.names) }
        ensures summary { self.new.summary ≡ self.old.summary }
    {
        if self.names.reserve(1).is_err() {
            return Err(Refused::plain(Fault::Memory));
        }
        execute(&mut self.manager, alloc, host, text)
    }

    /// Counts an answer and keeps the name of its theorem, for which there is room.
    pub fn keep(&mut self, answer: Result<Printed, Refused>)
        requires room { OnOk answer (vec_len self.old.names < vec_capacity self.old.names) }
        requires accepted { self.old.summary.accepted < 2 ^ 63 }
        requires refused { self.old.summary.refused < 2 ^ 63 }
        requires printed { self.old.summary.printed < 2 ^ 63 }
        ensures manager { self.new.manager ≡ self.old.manager }
        ensures names { names_of self.new ≡ names_of self.old ++ names_in_answer answer }
        ensures counts { counts_of self.new.summary ≡ counting_answer (counts_of self.old.summary) answer }
        ensures accepted { self.new.summary.accepted ≤ self.old.summary.accepted + 1 }
        ensures refused { self.new.summary.refused ≤ self.old.summary.refused + 1 }
        ensures printed { self.new.summary.printed ≤ self.old.summary.printed + 1 }
    {
        self.summary = self.summary.counting(&answer);
        match answer {
            Ok(Printed::Line(line)) => self.names.push_reserved(line.name),
            Ok(Printed::Nothing) => {}
            Ok(Printed::Goals(_text)) => {}
            Err(_refused) => {}
        }
    }

    /// The text of the log of the theorems that were printed. Refusals: Memory, and TooLong, where the text would be
    /// longer than the limit on texts.
    pub fn log_text(&self, alloc: Global) -> Result<Vec<u8>, Fault>
        requires manager { IsManager self.now.manager }
        requires named { HaveIdentifiers (claims_stored self.now) }
        ensures ok { IfOk result (λ text. IsAcceptedLog (journal_of self.now) (claims_listed self.now) text.items) }
        ensures too_long { IsErrOf result TooLong → IsLongLog (journal_of self.now) (claims_listed self.now) }
        ensures refusals { IfErr result (Contains (TooLong ∷ Memory ∷ [])) }
    {
        self.manager.log_text(alloc, &self.names)
    }
}

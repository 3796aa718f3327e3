// The check of a whole log.
ghost use Rattle.std.specs.Prelude.{◌≡◌, false, IfOk, IfErr};
ghost use Rattle.hol_check.specs.Entries.{entries_in};
ghost use Rattle.hol_check.specs.Reading.{TellsFailure};
ghost use Rattle.hol_check.specs.LogAnswers.{TellsInput, IsRefusal};
ghost use Rattle.hol_check.specs.Checking.{HasClaims, HasEntries};

use crate::claim::{Claim, claims_of};
use crate::entry::{LogEntry, entries_of};
use crate::log_reader::read_log;
use hol_check_lines::log::Log;
use hol_model::{Fault, Source, accepted_logs_are_sound};
use hol_sound::accepted_claims_hold;
use std::alloc::Global;
use std::rc::Rc;

// The log that a source gives, where it is accepted, with the laws on its entries and claims.
fn read_accepted<R: Source>(alloc: Global, reader: &mut R) -> Result<Rc<Log>, Fault>
    requires unfailed { R.has_failed reader.old ≡ false }
    ensures listed { IfOk result (λ log. HasEntries (R.remaining reader.old) log.value.claims (entries_in log.value.theory)) }
    ensures refused { TellsInput result (R.remaining reader.old) (R.remaining reader.new) }
    ensures failure { TellsFailure result (R.has_failed reader.new) }
    ensures refusals { IfErr result IsRefusal }
{
    accepted_logs_are_sound();
    accepted_claims_hold();
    Ok(Rc::new(alloc, read_log(alloc, reader)?)?)
}

/// The claims of the log that a source gives, in the order of their lines. Each of them is derivable from the
/// definitions and declarations of the log, and holds in every finite standard model of them, whatever the bytes are.
///
/// Refusals: ReadFault, where the source fails, and TooLong, where the log is longer than the limit on texts, even if a
/// line before is faulty; LogFault with the first faulty line and the first cause that applies to it; Memory.
pub fn check<R: Source>(alloc: Global, reader: &mut R) -> Result<Vec<Claim>, Fault>
    requires unfailed { R.has_failed reader.old ≡ false }
    ensures claims { IfOk result (λ claims. HasClaims (R.remaining reader.old) claims.items) }
    ensures refused { TellsInput result (R.remaining reader.old) (R.remaining reader.new) }
    ensures failure { TellsFailure result (R.has_failed reader.new) }
    ensures refusals { IfErr result IsRefusal }
{
    let log = read_accepted(alloc, reader)?;
    claims_of(alloc, log)
}

/// A log that was accepted: its claims, and the entries of its theory on which they rest, each in the order of their lines.
#[derive(Drop)]
pub struct CheckedLog {
    pub claims: Vec<Claim>,
    pub entries: Vec<LogEntry>,
}

/// The log that a source gives: its claims, as `check` answers them, and the definitions and declarations of which they
/// speak. Refusals: as of `check`.
pub fn check_log<R: Source>(alloc: Global, reader: &mut R) -> Result<CheckedLog, Fault>
    requires unfailed { R.has_failed reader.old ≡ false }
    ensures listed { IfOk result (λ log. HasEntries (R.remaining reader.old) log.claims.items log.entries.items) }
    ensures refused { TellsInput result (R.remaining reader.old) (R.remaining reader.new) }
    ensures failure { TellsFailure result (R.has_failed reader.new) }
    ensures refusals { IfErr result IsRefusal }
{
    let log = read_accepted(alloc, reader)?;
    let entries = entries_of(alloc, log.clone()?)?;
    let claims = claims_of(alloc, log)?;
    Ok(CheckedLog { claims, entries })
}

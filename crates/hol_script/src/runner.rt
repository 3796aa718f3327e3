// Runs a script from a source to a sink, and writes its log to another.
ghost use Rattle.std.specs.Prelude.{◌≡◌, ◌⊎◌, ◌≤◌, ◌∷◌, [], true, false, length, OnOk, OnErr, IfOk, IfErr, IsErrOf, Contains};
ghost use Rattle.hol_model_sessions.specs.Walking.{TellsWalk};
ghost use Rattle.hol_model_sessions.specs.Runs.{Ends};
ghost use Rattle.hol_model.specs.declared.fault.Fault.TheVariants.{Memory, WriteFault, TooLong};
ghost use Rattle.hol_journal_log.specs.Pruning.{HaveIdentifiers};
ghost use Rattle.hol_script_manager.specs.Session.{session_tools, IsLongLog};
ghost use Rattle.hol_script_manager.specs.Managers.{state_of, IsManager};
ghost use Rattle.hol_script.specs.Runs.{TellsFront, counts_of, names_of, Finishes, Breaks, answer_of, source_use, sink_use, devices_used};
ghost use Rattle.hol_script.specs.RunLogs.{claims_stored, claims_listed, journal_of, IsLogOver, WritesLog, WritesFront};
ghost use Rattle.hol_script.specs.Endings.{TellsFailures, LeavesSession};

use crate::course::Course;
use crate::devices::Devices;
use crate::ended::Ended;
use crate::progress::Progress;
use hol_device_io::{read_all, write_all};
use hol_host::Refiners;
use hol_model::{Fault, Sink, Source, TEXT_BYTES_LIMIT};
use std::alloc::Global;

// Answers the commands of a script, one after another, and writes the text of each answer. Where no log is wanted, what it is
// written from is not kept.
fn run_script<W: Sink, H: Refiners>(
    alloc: Global,
    script: &[u8],
    writer: &mut W,
    wants_log: bool,
    host: &H,
) -> Result<Progress, Fault>
    requires unfailed { W.has_failed writer.old ≡ false }
    requires within_limit { length script.now ≤ TEXT_BYTES_LIMIT }
    ensures ok { IfOk result (λ progress. Finishes (session_tools (H.refiners host.now) (H.conversions host.now)) script.now (W.contents writer.old) (W.contents writer.new)
        (counts_of progress.summary) (names_of progress) (state_of progress.manager)) }
    ensures is_manager { IfOk result (λ progress. IsManager progress.manager) }
    ensures err { OnErr result (Breaks (session_tools (H.refiners host.now) (H.conversions host.now)) script.now (W.contents writer.old) (W.contents writer.new)) }
    ensures unfailed { OnOk result (W.has_failed writer.new ≡ false) }
    ensures failed { IsErrOf result WriteFault → W.has_failed writer.new ≡ true }
    ensures told { W.has_failed writer.new ≡ true → IsErrOf result WriteFault }
    ensures unwritten { IsErrOf result Memory → writer.new ≡ writer.old }
    ensures refusals { IfErr result (Contains (WriteFault ∷ Memory ∷ [])) }
{
    let mut course = Course::new(alloc, wants_log)?;
    course.answer_all(alloc, script, writer, host)?;
    Ok(course.progress)
}

/// Writes the log of the theorems that were printed, where one is wanted. Refused: Memory; TooLong, where it is longer than the limit
/// on texts; WriteFault, where the sink failed.
pub(crate) fn write_log<L: Sink>(
    alloc: Global,
    progress: &Progress,
    log: &mut L,
    wants_log: bool,
) -> Result<(), Fault>
    requires unfailed { L.has_failed log.old ≡ false }
    requires manager { IsManager progress.now.manager }
    requires named { HaveIdentifiers (claims_stored progress.now) }
    ensures unasked { wants_log ≡ false → log.new ≡ log.old }
    ensures asked { OnErr result (wants_log ≡ true) }
    ensures ok { wants_log ≡ true → OnOk result (WritesLog (journal_of progress.now) (claims_listed progress.now) (L.contents log.old) (L.contents log.new)) }
    ensures unfailed { OnOk result (L.has_failed log.new ≡ false) }
    ensures told { L.has_failed log.new ≡ true → IsErrOf result WriteFault }
    ensures write_fault { IsErrOf result WriteFault
        → (L.has_failed log.new ≡ true) × WritesFront (journal_of progress.now) (claims_listed progress.now) (L.contents log.old) (L.contents log.new) }
    ensures too_long { IsErrOf result TooLong → IsLongLog (journal_of progress.now) (claims_listed progress.now) }
    ensures unwritten { (IsErrOf result TooLong ⊎ IsErrOf result Memory) → log.new ≡ log.old }
    ensures refusals { IfErr result (Contains (WriteFault ∷ TooLong ∷ Memory ∷ [])) }
{
    if !wants_log {
        return Ok(());
    }
    let text = progress.log_text(alloc)?;
    write_all(log, text.as_slice())
}

/// Reads a whole script, runs its commands in order over a host's functions and writes a line for each theorem and each
/// refusal, and the goals that are open after each command of goals (`ends`): what is written is what a session of that script
/// writes, or the front of it where the output breaks off. Each theorem in it follows from the entries accepted before it, and
/// holds in every finite standard model, whatever the host's functions answer. The summary counts that session's replies.
///
/// The same told without sessions (`told`, `told_front`): the script is cut into pieces, and each piece is answered by lines,
/// one piece after another, or by the front of these where the run stops. A piece may declare one entry or set the goal, and
/// its answer speaks of what the pieces up to it have declared, and of the goal that was set last. It is nothing; or a name and
/// the text of a sequent that reads back as itself, follows from a legal theory and holds; or a refusal with the number of the
/// piece's own line; or the goals that are open; or that none is open, and then the goal that was set last follows and holds.
///
/// Where a log is wanted, it is written after the last command: the pruned log of the theorems that were printed, from the
/// journal of the session that the run left, which is accepted, with a claim for each line of a theorem, in order. Where none is
/// wanted, its sink is left alone. The answer is the session as the run left it, with what it counted, and what became of the log
/// (`session`).
///
/// ReadFault and TooLong come before anything is written: the source failed, or the script is longer than the limit on
/// texts. Memory comes while the script is read, or while the session is begun and the theorems of the prelude are made: a
/// growth refused in a command refuses that command. WriteFault: the writer failed. The log alone is refused, and none of it is
/// written, Memory where it finds no memory and TooLong where it is longer than the limit; WriteFault where its sink failed.
pub fn run<R: Source, W: Sink, L: Sink, H: Refiners>(
    alloc: Global,
    devices: &mut Devices<R, W, L>,
    host: &H,
) -> Result<Ended, Fault>
    requires { (R.has_failed devices.old.reader ≡ false) × (W.has_failed devices.old.writer ≡ false) × (L.has_failed devices.old.log ≡ false) }
    ensures ends { Ends (session_tools (H.refiners host.now) (H.conversions host.now)) IsLogOver
        (devices_used (source_use (R.remaining devices.old.reader) (R.has_failed devices.new.reader))
        (sink_use (W.contents devices.old.writer) (W.contents devices.new.writer) (W.has_failed devices.new.writer) (devices.new.writer ≡ devices.old.writer))
        (sink_use (L.contents devices.old.log) (L.contents devices.new.log) (L.has_failed devices.new.log) (devices.new.log ≡ devices.old.log)))
        (answer_of result) devices.old.wants_log }
    ensures told { OnOk result (TellsWalk (R.remaining devices.old.reader) (W.contents devices.old.writer) (W.contents devices.new.writer) []) }
    ensures told_front { OnErr result (TellsFront (R.remaining devices.old.reader) (W.contents devices.old.writer) (W.contents devices.new.writer)) }
    ensures failures { TellsFailures (R.has_failed devices.new.reader) (W.has_failed devices.new.writer) (L.has_failed devices.new.log) result }
    ensures session { LeavesSession (session_tools (H.refiners host.now) (H.conversions host.now)) (R.remaining devices.old.reader)
        (W.contents devices.old.writer) (W.contents devices.new.writer) (L.contents devices.old.log) (L.contents devices.new.log) devices.old.wants_log result }
{
    let script = read_all(alloc, &mut devices.reader)?;
    let progress = run_script(alloc, &script, &mut devices.writer, devices.wants_log, host)?;
    let logged = write_log(alloc, &progress, &mut devices.log, devices.wants_log);
    Ok(Ended { progress, logged })
}

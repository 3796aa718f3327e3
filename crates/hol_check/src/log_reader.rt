// A whole log judged line by line.
ghost use Rattle.std.specs.Prelude.{◌≡◌, ◌≤◌, ◌<◌, ◌+◌, ⊤, ℕ, List, [], Option, true, false, length, IfOk, OnOk, IfErr, IfSome, MatchBool};
ghost use Rattle.hol_model.specs.declared.fault.Fault.TheVariants.{Memory, ReadFault, TooLong};
ghost use Rattle.hol_model.specs.Logs.LogText.{dest_header};
ghost use Rattle.std.specs.Option.{option_map};
ghost use Rattle.hol_logtext.specs.Lines.{version_of};
ghost use Rattle.hol_logtext.specs.LineReading.{read_text};
ghost use Rattle.hol_check.specs.Reading.{IsUnread, TellsFailure};
ghost use Rattle.hol_check.specs.LogAnswers.{IsTakenText, IsEnded, IsRefusedAt, IsUnderway, IsAcceptedLog, TellsRefusal, TellsInput, IsRefusal};

use crate::reading::Reading;
use hol_check_lines::log::Log;
use hol_check_lines::take::take;
use hol_logtext::{Line, Version, read_line};
use hol_model::{Cause, Fault, Source, TEXT_BYTES_LIMIT};
use std::alloc::Global;

// The version that the text of the first line tells, where it is a header.
fn header(alloc: Global, text: &[u8]) -> Result<Option<Version>, Fault>
    ensures header { IfOk result (λ version. dest_header (read_text text.now) ≡ option_map version_of version) }
    ensures refused { IfErr result (λ fault. fault ≡ Memory) }
{
    match read_line(alloc, text)? {
        Ok(Line::Header(version)) => Ok(Some(version)),
        _ => Ok(None),
    }
}

// What the text of a later line adds to the state, or the cause for which it is refused.
fn go_on(alloc: Global, log: &mut Log, text: &[u8]) -> Result<Result<(), Cause>, Fault>
    ensures taken { IfOk result (λ answer. IsTakenText log.old (read_text text.now) answer log.new) }
    ensures refused { IfErr result (λ fault. fault ≡ Memory) }
{
    match read_line(alloc, text)? {
        Ok(line) => take(log, &line),
        Err(cause) => Ok(Err(cause)),
    }
}

// Where the text ends: behind a line feed and the last line, or too early.
fn end(log: &Log, line: &[u8], number: u64) -> Result<(), Cause>
    ensures { IsEnded number log.now line.now result }
{
    if !line.is_empty() {
        return Err(Cause::Cut);
    }
    if log.is_ended() {
        Ok(())
    } else {
        Err(Cause::End)
    }
}

// The fault of a line that is refused, once the text is read to its end.
fn refuse<R: Source>(reader: &mut R, reading: &mut Reading, line: u64, cause: Cause) -> Fault
    requires unfailed { R.has_failed reader.old ≡ false }
    ensures refused { (input : Option (List ℕ)) (handed : List ℕ) → IsUnread input handed reading.old (R.remaining reader.old)
        → IsRefusedAt handed line cause → TellsRefusal input result }
    ensures too_long { (input : Option (List ℕ)) (handed : List ℕ) → IsUnread input handed reading.old (R.remaining reader.old)
        → result ≡ TooLong → IfSome input (λ told. TEXT_BYTES_LIMIT < length told) }
    ensures failed { result ≡ ReadFault → R.has_failed reader.new ≡ true }
    ensures told { R.has_failed reader.new ≡ true → result ≡ ReadFault }
    ensures no_memory { ¬ (result ≡ Memory) }
    ensures refusals { IsRefusal result }
{
    match reading.skip_rest(reader) {
        Ok(()) => Fault::LogFault { line, cause },
        Err(fault) => fault,
    }
}

// Reads the next line and judges it; false where the text ended behind the last line.
fn read_next<R: Source>(
    alloc: Global,
    reader: &mut R,
    reading: &mut Reading,
    log: &mut Log,
    line: &mut Vec<u8>,
    number: u64,
) -> Result<bool, Fault>
    requires unfailed { R.has_failed reader.old ≡ false }
    ensures judged { (input : Option (List ℕ)) → IsUnderway input reading.old (R.remaining reader.old) number log.old
        → IfOk result (λ more. MatchBool more (IsUnderway input reading.new (R.remaining reader.new) (number + 1) log.new) (IsAcceptedLog input log.new)) }
    ensures refused { (input : Option (List ℕ)) → IsUnderway input reading.old (R.remaining reader.old) number log.old → TellsInput result input (R.remaining reader.new) }
    ensures given { IfOk result (λ more. MatchBool more (reading.old.given < reading.new.given) ⊤) }
    ensures within_limit { IfOk result (λ more. MatchBool more (reading.new.given ≤ TEXT_BYTES_LIMIT) ⊤) }
    ensures failure { TellsFailure result (R.has_failed reader.new) }
    ensures refusals { IfErr result IsRefusal }
{
    let is_line = reading.next_line(reader, line)?;
    if is_line {
        match go_on(alloc, log, line.as_slice())? {
            Ok(()) => Ok(true),
            Err(cause) => Err(refuse(reader, reading, number, cause)),
        }
    } else {
        match end(log, line.as_slice(), number) {
            Ok(()) => Ok(false),
            Err(cause) => Err(Fault::LogFault {
                line: number,
                cause,
            }),
        }
    }
}

// Judges the lines behind the header.
fn read_lines<R: Source>(
    alloc: Global,
    reader: &mut R,
    reading: &mut Reading,
    log: &mut Log,
) -> Result<(), Fault>
    requires unfailed { R.has_failed reader.old ≡ false }
    ensures accepted { (input : Option (List ℕ)) → IsUnderway input reading.old (R.remaining reader.old) 2 log.old → OnOk result (IsAcceptedLog input log.new) }
    ensures refused { (input : Option (List ℕ)) → IsUnderway input reading.old (R.remaining reader.old) 2 log.old → TellsInput result input (R.remaining reader.new) }
    ensures failure { TellsFailure result (R.has_failed reader.new) }
    ensures refusals { IfErr result IsRefusal }
{
    let mut line = Vec::new(alloc);
    let mut number = 2u64;
    loop {
        let more = read_next(alloc, reader, reading, log, &mut line, number)?;
        if !more {
            return Ok(());
        }
        number += 1;
    }
}

// Reads the first line; the answer is the state after it.
fn begin<R: Source>(alloc: Global, reader: &mut R, reading: &mut Reading) -> Result<Log, Fault>
    requires unfailed { R.has_failed reader.old ≡ false }
    ensures begun { (input : Option (List ℕ)) → IsUnread input [] reading.old (R.remaining reader.old)
        → IfOk result (λ log. IsUnderway input reading.new (R.remaining reader.new) 2 log) }
    ensures refused { (input : Option (List ℕ)) → IsUnread input [] reading.old (R.remaining reader.old) → TellsInput result input (R.remaining reader.new) }
    ensures failure { TellsFailure result (R.has_failed reader.new) }
    ensures refusals { IfErr result IsRefusal }
{
    let mut line = Vec::new(alloc);
    let is_line = reading.next_line(reader, &mut line)?;
    match header(alloc, line.as_slice())? {
        Some(version) => {
            if !is_line {
                return Err(Fault::LogFault {
                    line: 1,
                    cause: Cause::Cut,
                });
            }
            Log::new(alloc, version)
        }
        None => {
            if !is_line {
                return Err(Fault::LogFault {
                    line: 1,
                    cause: Cause::Header,
                });
            }
            Err(refuse(reader, reading, 1, Cause::Header))
        }
    }
}

/// The last state of the log that the source gives.
///
/// Refusals: ReadFault and TooLong, even where a line is faulty; LogFault with the first faulty line and its cause;
/// Memory.
pub(crate) fn read_log<R: Source>(alloc: Global, reader: &mut R) -> Result<Log, Fault>
    requires unfailed { R.has_failed reader.old ≡ false }
    ensures accepted { IfOk result (IsAcceptedLog (R.remaining reader.old)) }
    ensures refused { TellsInput result (R.remaining reader.old) (R.remaining reader.new) }
    ensures failure { TellsFailure result (R.has_failed reader.new) }
    ensures refusals { IfErr result IsRefusal }
{
    let mut reading = Reading::new();
    let mut log = begin(alloc, reader, &mut reading)?;
    read_lines(alloc, reader, &mut reading, &mut log)?;
    Ok(log)
}

// Reads a script as it comes, and answers each command before it reads on.
ghost use Rattle.std.specs.Prelude.{◌≡◌, [], false, OnOk, OnErr, IfOk, IfErr};
ghost use Rattle.hol_model.specs.Texts.KnownText.{Tells};
ghost use Rattle.hol_model_sessions.specs.Script.{has_mark};
ghost use Rattle.hol_model_sessions.specs.Walking.{TellsWalk};
ghost use Rattle.hol_script_manager.specs.Managers.{IsManager};
ghost use Rattle.hol_script_manager.specs.Session.{session_tools};
ghost use Rattle.hol_script.specs.Runs.{TellsFront, answer_of, source_use, sink_use, devices_used};
ghost use Rattle.hol_script.specs.RunLogs.{IsLogOver};
ghost use Rattle.hol_script.specs.Courses.{IsBegun, IsWithin, IsUnderway, StopsTold, IsReadWhole};
ghost use Rattle.hol_script.specs.Conversations.{Closes};
ghost use Rattle.hol_script.specs.Endings.{TellsFailures, LeavesSession};

use crate::course::Course;
use crate::devices::Devices;
use crate::ended::Ended;
use crate::progress::Progress;
use crate::runner::write_log;
use hol_host::Refiners;
use hol_model::{Fault, Sink, Source, TEXT_BYTES_LIMIT};
use std::alloc::Global;

// Reads a source to its end, and answers each command as soon as its `;;` has been read. Keeps all the bytes.
fn answer_source<R: Source, W: Sink, H: Refiners>(
    alloc: Global,
    reader: &mut R,
    read: &mut Vec<u8>,
    course: &mut Course,
    writer: &mut W,
    host: &H,
) -> Result<(), Fault>
    requires reader_unfailed { R.has_failed reader.old ≡ false }
    requires writer_unfailed { W.has_failed writer.old ≡ false }
    requires begun { IsBegun course.old }
    requires unread { read.old.items ≡ [] }
    ensures underway { OnOk result (IsUnderway (session_tools (H.refiners host.now) (H.conversions host.now)) read.new.items (W.contents writer.old) (W.contents writer.new) course.new) }
    ensures within { OnOk result (IsWithin read.new.items course.new) }
    ensures told { OnOk result (Tells (R.remaining reader.old) read.new.items) }
    ensures reader_unfailed { OnOk result (R.has_failed reader.new ≡ false) }
    ensures writer_unfailed { OnOk result (W.has_failed writer.new ≡ false) }
    ensures err { IfErr result (StopsTold (session_tools (H.refiners host.now) (H.conversions host.now))
        (source_use (R.remaining reader.old) (R.has_failed reader.new)) (R.remaining reader.new) (W.contents writer.old) (W.contents writer.new) (W.has_failed writer.new)) }
{
    let mut buffer = [0u8; 4096];
    'pulls: loop {
        let Ok(count) = reader.pull(&mut buffer) else {
            return Err(Fault::ReadFault);
        };
        if count == 0 {
            return Ok(());
        }
        let known = read.len();
        if count > TEXT_BYTES_LIMIT - known {
            return Err(Fault::TooLong);
        }
        read.extend_from_slice(&buffer[..count])?;
        course.answer_read(alloc, read, known, writer, host)?;
    }
}

// Reads a source to its end and answers all that it gives, each command as soon as its `;;` has been read.
fn answer_input<R: Source, W: Sink, H: Refiners>(
    alloc: Global,
    reader: &mut R,
    writer: &mut W,
    wants_log: bool,
    host: &H,
) -> Result<Progress, Fault>
    requires reader_unfailed { R.has_failed reader.old ≡ false }
    requires writer_unfailed { W.has_failed writer.old ≡ false }
    ensures ok { IfOk result (IsReadWhole (session_tools (H.refiners host.now) (H.conversions host.now)) (R.remaining reader.old) (W.contents writer.old) (W.contents writer.new)) }
    ensures is_manager { IfOk result (λ progress. IsManager progress.manager) }
    ensures reader_unfailed { OnOk result (R.has_failed reader.new ≡ false) }
    ensures writer_unfailed { OnOk result (W.has_failed writer.new ≡ false) }
    ensures err { IfErr result (StopsTold (session_tools (H.refiners host.now) (H.conversions host.now))
        (source_use (R.remaining reader.old) (R.has_failed reader.new)) (R.remaining reader.new) (W.contents writer.old) (W.contents writer.new) (W.has_failed writer.new)) }
{
    let mut course = Course::new(alloc, wants_log)?;
    let mut read = Vec::new(alloc);
    answer_source(alloc, reader, &mut read, &mut course, writer, host)?;
    course.answer_all(alloc, &read, writer, host)?;
    Ok(course.progress)
}

/// Reads commands from a source, runs each over a host's functions as soon as its `;;` has been read, and writes what `run` writes
/// of it before it reads on. At the end of the input the bytes that no `;;` follows are treated as `run` treats them, and then the
/// log is written, where one is wanted.
///
/// On Ok all is as `run` says of all the bytes that were read (`closes`, `told`, `session`). On Err what was written is a front of
/// that (`told_front`). ReadFault (the source failed), TooLong (the bytes are longer than the limit on texts) and Memory
/// come behind the answers to the commands whose `;;` was read, and these are whole: a source that fails may do so at any call, so
/// at each call all commands that it has given are answered. WriteFault: the writer failed, within these answers or in the last
/// one. The log is written at the end alone, and refused as by `run`.
pub fn converse<R: Source, W: Sink, L: Sink, H: Refiners>(
    alloc: Global,
    devices: &mut Devices<R, W, L>,
    host: &H,
) -> Result<Ended, Fault>
    requires { (R.has_failed devices.old.reader ≡ false) × (W.has_failed devices.old.writer ≡ false) × (L.has_failed devices.old.log ≡ false) }
    ensures closes { Closes (session_tools (H.refiners host.now) (H.conversions host.now)) IsLogOver
        (devices_used (source_use (R.remaining devices.old.reader) (R.has_failed devices.new.reader))
        (sink_use (W.contents devices.old.writer) (W.contents devices.new.writer) (W.has_failed devices.new.writer) (devices.new.writer ≡ devices.old.writer))
        (sink_use (L.contents devices.old.log) (L.contents devices.new.log) (L.has_failed devices.new.log) (devices.new.log ≡ devices.old.log)))
        (R.remaining devices.new.reader) (answer_of result) devices.old.wants_log }
    ensures told { OnOk result (TellsWalk (R.remaining devices.old.reader) (W.contents devices.old.writer) (W.contents devices.new.writer) []) }
    ensures told_front { OnErr result (TellsFront (R.remaining devices.old.reader) (W.contents devices.old.writer) (W.contents devices.new.writer)) }
    ensures failures { TellsFailures (R.has_failed devices.new.reader) (W.has_failed devices.new.writer) (L.has_failed devices.new.log) result }
    ensures session { LeavesSession (session_tools (H.refiners host.now) (H.conversions host.now)) (R.remaining devices.old.reader)
        (W.contents devices.old.writer) (W.contents devices.new.writer) (L.contents devices.old.log) (L.contents devices.new.log) devices.old.wants_log result }
{
    let progress = answer_input(
        alloc,
        &mut devices.reader,
        &mut devices.writer,
        devices.wants_log,
        host,
    )?;
    let logged = write_log(alloc, &progress, &mut devices.log, devices.wants_log);
    Ok(Ended { progress, logged })
}

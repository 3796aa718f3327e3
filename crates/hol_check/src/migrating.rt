// Logs under the header of the second version.
ghost use Rattle.std.specs.Prelude.{◌≡◌, ◌≤◌, true, false, Some, length, IfOk, OnOk, IfErr, IsErrOf};
ghost use Rattle.hol_model.specs.declared.fault.Fault.TheVariants.{WriteFault};
ghost use Rattle.hol_check.specs.Reading.{TellsFailure};
ghost use Rattle.hol_check.specs.LogAnswers.{TellsRefusal, TellsInput, IsRefusal};
ghost use Rattle.hol_check.specs.Checking.{HasClaims};
ghost use Rattle.hol_check.specs.Migration.{IsHeaded, IsMigrated, IsMigration, Migrates, MigratesFront, IsTextRefusal, IsMigrationRefusal, UnlessWriteFault};

use crate::checker::check;
use crate::claim::Claim;
use crate::laws::migration_keeps_claims;
use crate::text_source::TextSource;
use hol_device_io::{read_all, write_all};
use hol_logtext::reading_is_exact;
use hol_model::{Fault, Sink, Source, TEXT_BYTES_LIMIT};
use std::alloc::Global;

// The claims of the log that a text is.
fn check_text(alloc: Global, text: &[u8]) -> Result<Vec<Claim>, Fault>
    requires within_limit { length text.now ≤ TEXT_BYTES_LIMIT }
    ensures claims { IfOk result (λ claims. HasClaims (Some text.now) claims.items) }
    ensures refused { IfErr result (TellsRefusal (Some text.now)) }
    ensures refusals { IfErr result IsTextRefusal }
{
    let mut source = TextSource { rest: text };
    check(alloc, &mut source)
}

// Makes the header that of the second version.
fn set_second_version(text: &mut Vec<u8>)
    requires { IsHeaded text.old.items }
    ensures { IsMigrated text.old.items text.new.items }
{
    text[9] = b'2';
}

/// The claims of the log that a source gives, and the log with the header of the second version, whichever it had: this
/// is accepted with the same claims.
///
/// Refusals: as of `check`.
fn migration<R: Source>(alloc: Global, reader: &mut R) -> Result<(Vec<Claim>, Vec<u8>), Fault>
    requires unfailed { R.has_failed reader.old ≡ false }
    ensures migration { IfOk result (λ answer. IsMigration (R.remaining reader.old) answer.0.items answer.1.items) }
    ensures refused { TellsInput result (R.remaining reader.old) (R.remaining reader.new) }
    ensures failure { TellsFailure result (R.has_failed reader.new) }
    ensures refusals { IfErr result IsRefusal }
{
    reading_is_exact();
    migration_keeps_claims();
    let mut text = read_all(alloc, reader)?;
    let claims = check_text(alloc, text.as_slice())?;
    set_second_version(&mut text);
    Ok((claims, text))
}

/// Writes the log that a source gives with the header of the second version, whichever it had, and answers its claims.
/// What is written is accepted with the same claims. The log is read to its end before anything is written.
///
/// Refusals: ReadFault, TooLong, LogFault and Memory as of `check`, and then nothing is written; WriteFault, where the
/// sink fails, and then a front of the log is written.
pub fn migrate<R: Source, W: Sink>(
    alloc: Global,
    reader: &mut R,
    writer: &mut W,
) -> Result<Vec<Claim>, Fault>
    requires reader_unfailed { R.has_failed reader.old ≡ false }
    requires writer_unfailed { W.has_failed writer.old ≡ false }
    ensures migrated { IfOk result (λ claims. Migrates (R.remaining reader.old) claims.items (W.contents writer.old) (W.contents writer.new)) }
    ensures refused { TellsInput result (R.remaining reader.old) (R.remaining reader.new) }
    ensures failure { TellsFailure result (R.has_failed reader.new) }
    ensures unwritten { IfErr result (λ fault. UnlessWriteFault fault (writer.new ≡ writer.old)) }
    ensures front { IsErrOf result WriteFault → MigratesFront (R.remaining reader.old) (W.contents writer.old) (W.contents writer.new) }
    ensures write_fault { IsErrOf result WriteFault → W.has_failed writer.new ≡ true }
    ensures write_told { W.has_failed writer.new ≡ true → IsErrOf result WriteFault }
    ensures writer_unfailed { OnOk result (W.has_failed writer.new ≡ false) }
    ensures refusals { IfErr result IsMigrationRefusal }
{
    let (claims, text) = migration(alloc, reader)?;
    write_all(writer, text.as_slice())?;
    Ok(claims)
}

// The claims and the entries of a log on a sink.
ghost use Rattle.std.specs.Prelude.{◌≡◌, ℕ, List, ◌∷◌, [], ◌++◌, true, false, IfOk, OnOk, OnErr, IfErr, IsErrOf, Contains};
ghost use Rattle.std.specs.Io.KnownBytes.{Appends};
ghost use Rattle.hol_model.specs.declared.fault.Fault.TheVariants.{Memory, WriteFault};
ghost use Rattle.hol_device_io.specs.Bytes.{AppendsFront};
ghost use Rattle.hol_check.specs.Report.{claim_lines, entry_lines};

use crate::claim::{Claim, text_of_claim};
use crate::entry::{LogEntry, text_of_entry};
use hol_device_io::write_all;
use hol_model::{Fault, Sink};
use std::alloc::Global;

// Writes a text that was made, and a line feed.
fn write_line<W: Sink>(text: Result<Vec<u8>, Fault>, writer: &mut W) -> Result<(), Fault>
    requires unfailed { W.has_failed writer.old ≡ false }
    requires refused { IfErr text (λ fault. fault ≡ Memory) }
    ensures ok { (told : List ℕ) → IfOk text (λ text. text.items ≡ told) → OnOk result (Appends (W.contents writer.old) (W.contents writer.new) (told ++ 10 ∷ [])) }
    ensures unfailed { OnOk result (W.has_failed writer.new ≡ false) }
    ensures err { (told : List ℕ) → IfOk text (λ text. text.items ≡ told) → OnErr result (AppendsFront (W.contents writer.old) (W.contents writer.new) (told ++ 10 ∷ [])) }
    ensures write_fault { IsErrOf result WriteFault → W.has_failed writer.new ≡ true }
    ensures told { W.has_failed writer.new ≡ true → IsErrOf result WriteFault }
    ensures refusals { IfErr result (Contains (WriteFault ∷ Memory ∷ [])) }
{
    let mut text = text?;
    text.push(b'\n')?;
    write_all(writer, text.as_slice())
}

/// Writes a line for each claim. Refusals: WriteFault, where the sink fails; Memory, for the text of a claim; a front of
/// the lines is written then.
pub fn write_claims<W: Sink>(alloc: Global, claims: &[Claim], writer: &mut W) -> Result<(), Fault>
    requires unfailed { W.has_failed writer.old ≡ false }
    ensures ok { OnOk result (Appends (W.contents writer.old) (W.contents writer.new) (claim_lines claims.now)) }
    ensures unfailed { OnOk result (W.has_failed writer.new ≡ false) }
    ensures err { OnErr result (AppendsFront (W.contents writer.old) (W.contents writer.new) (claim_lines claims.now)) }
    ensures write_fault { IsErrOf result WriteFault → W.has_failed writer.new ≡ true }
    ensures told { W.has_failed writer.new ≡ true → IsErrOf result WriteFault }
    ensures refusals { IfErr result (Contains (WriteFault ∷ Memory ∷ [])) }
{
    for claim in claims {
        write_line(text_of_claim(alloc, claim), writer)?;
    }
    Ok(())
}

/// Writes a line for each entry. Refusals: WriteFault, where the sink fails; Memory, for the text of an entry; a front of
/// the lines is written then.
pub fn write_entries<W: Sink>(
    alloc: Global,
    entries: &[LogEntry],
    writer: &mut W,
) -> Result<(), Fault>
    requires unfailed { W.has_failed writer.old ≡ false }
    ensures ok { OnOk result (Appends (W.contents writer.old) (W.contents writer.new) (entry_lines entries.now)) }
    ensures unfailed { OnOk result (W.has_failed writer.new ≡ false) }
    ensures err { OnErr result (AppendsFront (W.contents writer.old) (W.contents writer.new) (entry_lines entries.now)) }
    ensures write_fault { IsErrOf result WriteFault → W.has_failed writer.new ≡ true }
    ensures told { W.has_failed writer.new ≡ true → IsErrOf result WriteFault }
    ensures refusals { IfErr result (Contains (WriteFault ∷ Memory ∷ [])) }
{
    for entry in entries {
        write_line(text_of_entry(alloc, entry), writer)?;
    }
    Ok(())
}

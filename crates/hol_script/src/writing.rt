// The texts of answers, written to a sink.
ghost use Rattle.std.specs.Prelude.{◌≡◌, true, false, Err, OnOk, OnErr, IfErr};
ghost use Rattle.std.specs.Io.KnownBytes.{Appends};
ghost use Rattle.hol_model.specs.declared.fault.Fault.TheVariants.{WriteFault};
ghost use Rattle.hol_device_io.specs.Bytes.{AppendsFront};
ghost use Rattle.hol_script_manager.specs.Session.{row_bytes, answer_text};
ghost use Rattle.hol_script.specs.Runs.{refusal_of_parts};

use hol_device_io::{write_all, write_pieces};
use hol_model::{Fault, Sink};
use hol_script_manager::{Printed, Refused};
use itoa::Buffer;

// The text of a refusal's row; of a refusal without one it is empty.
fn row_of(refused: &Refused) -> &[u8]
    ensures { result.now ≡ row_bytes refused.now }
{
    match &refused.row {
        Some(row) => row.as_bytes(),
        None => b"",
    }
}

// Writes the line of a refusal by its parts.
fn write_parts<'a, W: Sink>(
    writer: &mut W,
    line: &'a [u8],
    number: &'a [u8],
    name: &'a [u8],
    row: &'a [u8],
) -> Result<(), Fault>
    requires { W.has_failed writer.old ≡ false }
    ensures ok { OnOk result (Appends (W.contents writer.old) (W.contents writer.new) (refusal_of_parts line.now number.now name.now row.now)) }
    ensures unfailed { OnOk result (W.has_failed writer.new ≡ false) }
    ensures err { OnErr result (AppendsFront (W.contents writer.old) (W.contents writer.new) (refusal_of_parts line.now number.now name.now row.now)) }
    ensures failed { OnErr result (W.has_failed writer.new ≡ true) }
    ensures kinds { IfErr result (λ e. e ≡ WriteFault) }
{
    write_pieces(
        writer,
        &[b"line ", line, b": E", number, b" ", name, row, b"\n"],
    )
}

/// Writes the line of a refusal, without memory.
pub(crate) fn write_refusal<W: Sink>(
    writer: &mut W,
    line: u64,
    refused: &Refused,
) -> Result<(), Fault>
    requires { W.has_failed writer.old ≡ false }
    ensures ok { OnOk result (Appends (W.contents writer.old) (W.contents writer.new) (answer_text line (Err refused.now))) }
    ensures unfailed { OnOk result (W.has_failed writer.new ≡ false) }
    ensures err { OnErr result (AppendsFront (W.contents writer.old) (W.contents writer.new) (answer_text line (Err refused.now))) }
    ensures failed { OnErr result (W.has_failed writer.new ≡ true) }
    ensures kinds { IfErr result (λ e. e ≡ WriteFault) }
{
    let mut line_digits = Buffer::new();
    let mut number_digits = Buffer::new();
    let number = number_digits.format(refused.fault.number());
    write_parts(
        writer,
        line_digits.format(line).as_bytes(),
        number.as_bytes(),
        refused.fault.name().as_bytes(),
        row_of(refused),
    )
}

/// Writes the text of an answer.
pub(crate) fn write_answer<W: Sink>(
    writer: &mut W,
    line: u64,
    answer: &Result<Printed, Refused>,
) -> Result<(), Fault>
    requires { W.has_failed writer.old ≡ false }
    ensures ok { OnOk result (Appends (W.contents writer.old) (W.contents writer.new) (answer_text line answer.now)) }
    ensures unfailed { OnOk result (W.has_failed writer.new ≡ false) }
    ensures err { OnErr result (AppendsFront (W.contents writer.old) (W.contents writer.new) (answer_text line answer.now)) }
    ensures failed { OnErr result (W.has_failed writer.new ≡ true) }
    ensures kinds { IfErr result (λ e. e ≡ WriteFault) }
{
    match answer {
        Ok(Printed::Nothing) => Ok(()),
        Ok(Printed::Line(line)) => write_all(writer, line.text.as_bytes()),
        Ok(Printed::Goals(text)) => write_all(writer, text.as_bytes()),
        Err(refused) => write_refusal(writer, line, refused),
    }
}

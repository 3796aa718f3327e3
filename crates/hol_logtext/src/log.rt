// A proof log that is written line by line.
ghost use Rattle.std.specs.Prelude.{◌≡◌, ◌≤◌, ◌<◌, [], ◌∷◌, ◌++◌, length, IfOk, IfErr, OnOk, OnErr, IsErrOf};
ghost use Rattle.hol_model.specs.declared.fault.Fault.TheVariants.{Memory, TooLong};
ghost use Rattle.hol_model.specs.Logs.LogLine.LogLine.{header_line};
ghost use Rattle.hol_model.specs.Logs.LogLine.LogVersion.{second_version};
ghost use Rattle.hol_logtext.specs.LogBytes.{bytes_of_lines};
ghost use Rattle.hol_logtext.specs.Lines.{line_of};

use crate::line::{Line, Version};
use crate::writer::write_line;
use crate::written::WrittenLines;
use hol_model::{Fault, TEXT_BYTES_LIMIT};
use std::alloc::Global;
use std::marker::Model;

/// A log of the second version that is written line by line, within the limit on texts. What it stands for is the list of
/// its lines behind the header.
#[derive(Drop)]
pub struct LogWriter {
    text: Vec<u8>,
    // Whether the text would be longer than the limit; then no more of it is kept.
    is_past: bool,
    lines: WrittenLines,
}

impl Model for LogWriter {
    ghost use Rattle.std.specs.Prelude.{List};
    ghost use Rattle.hol_model.specs.Logs.LogLine.{LogLine};
    ghost use Rattle.hol_logtext.specs.LineCode.{lines_code};

    ghost Value = { List LogLine };

    ghost coded = { lines_code };

    ghost use Rattle.hol_logtext.specs.LogViews.{viewed_lines, IsWritten};

    ghost view = { viewed_lines };

    ghost invariant = { IsWritten };
}

impl LogWriter {
    /// The header alone, with room for so many bytes. Refused: Memory.
    pub fn new(alloc: Global, capacity: usize) -> Result<LogWriter, Fault>
        ensures ok { IfOk result (λ log. log ≡ []) }
        ensures err { IfErr result (λ fault. fault ≡ Memory) }
    {
        let mut text = Vec::with_capacity(alloc, capacity)?;
        write_line(&Line::Header(Version::Second), &mut text)?;
        Ok(LogWriter {
            text,
            is_past: false,
            lines: WrittenLines::new(),
        })
    }

    /// Puts a line at the end. Refused: Memory.
    pub fn write(&mut self, line: &Line<'_>) -> Result<(), Fault>
        ensures ok { OnOk result (self.new ≡ self.old ++ line_of line.now ∷ []) }
        ensures kept { OnErr result (self.new ≡ self.old) }
        ensures err { IfErr result (λ fault. fault ≡ Memory) }
    {
        if !self.is_past {
            write_line(line, &mut self.text)?;
            self.is_past = self.text.len() > TEXT_BYTES_LIMIT;
        }
        self.lines = self.lines.with(line);
        Ok(())
    }

    /// The text. Refused: TooLong, where it would be longer than the limit.
    pub fn finish(self) -> Result<Vec<u8>, Fault>
        ensures ok { IfOk result (λ text. text.items ≡ bytes_of_lines (header_line second_version ∷ self)) }
        ensures within_limit { IfOk result (λ text. length text.items ≤ TEXT_BYTES_LIMIT) }
        ensures too_long { IsErrOf result TooLong → TEXT_BYTES_LIMIT < length (bytes_of_lines (header_line second_version ∷ self)) }
        ensures refusals { IfErr result (λ fault. fault ≡ TooLong) }
    {
        if self.is_past {
            return Err(Fault::TooLong);
        }
        Ok(self.text)
    }
}

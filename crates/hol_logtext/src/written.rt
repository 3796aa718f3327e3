// The lines of a log as proofs see them. They take no bytes, and their calls do nothing at run time.
ghost use Rattle.std.specs.Prelude.{◌≡◌, List, [], ◌∷◌, ◌++◌};
ghost use base.Fml.{ftrue};
ghost use Rattle.hol_model.specs.Logs.LogLine.{LogLine};
ghost use Rattle.hol_logtext.specs.LineCode.{lines_code};
ghost use Rattle.hol_logtext.specs.Lines.{line_of};

use crate::line::Line;
use std::marker::Model;

/// The lines that are written, all but the header.
#[derive(Drop)]
pub(crate) struct WrittenLines {
    pub(crate) ghost lines: { List LogLine } by { lines_code },
}

impl Model for WrittenLines {
    ghost also_owns = { λ _. ftrue };
}

impl WrittenLines {
    pub(crate) fn new() -> WrittenLines
        ensures { result.lines ≡ [] }
    {
        WrittenLines {}
    }

    /// One line more.
    pub(crate) fn with(&self, _line: &Line<'_>) -> WrittenLines
        ensures { result.lines ≡ self.now.lines ++ line_of _line.now ∷ [] }
    {
        WrittenLines {}
    }
}

// The bytes of a conversation: scripts, one after another, and behind them standard input.

use hol_explain::Origin;
use hol_script_commands::cut::line_feeds;
use holp_files::ScriptFile;

/// Scripts and standard input that are read one after another as one. Each begins on a line of its own: where the one before does
/// not end with a line feed, one stands between them.
#[derive(Drop)]
pub(crate) struct Feed<'a> {
    names: &'a [&'a str],
    // Those that are not begun, the first of them last.
    waiting: Vec<ScriptFile>,
    input: Option<ScriptFile>,
    /// Those that are begun, and which lines come from which.
    pub(crate) origins: Vec<Origin<'a>>,
    /// How many line feeds were read.
    pub(crate) lines: usize,
    ends_line: bool,
}

impl<'a> Feed<'a> {
    /// The bytes of the files that were opened under these names.
    pub(crate) fn new(
        names: &'a [&'a str],
        opened: Vec<ScriptFile>,
        origins: Vec<Origin<'a>>,
    ) -> Feed<'a> {
        let mut waiting = opened;
        waiting.reverse();
        Feed {
            names,
            waiting,
            input: None,
            origins,
            lines: 0,
            ends_line: true,
        }
    }

    /// More than there are files.
    pub(crate) fn steps(&self) -> usize {
        self.names.len().saturating_add(1)
    }

    /// Whether the last file is read.
    pub(crate) fn is_last(&self) -> bool {
        self.input.is_some() && self.waiting.is_empty()
    }

    /// Reads what stands next in the file that is read. None: it failed.
    pub(crate) fn read(&mut self, buf: &mut [u8]) -> Option<usize> {
        let Some(input) = &mut self.input else {
            return Some(0);
        };
        let count = input.read(buf).ok()?;
        let bytes = buf.get(..count)?;
        self.lines = self.lines.saturating_add(line_feeds(bytes));
        if let Some(last) = bytes.last() {
            self.ends_line = *last == b'\n';
        }
        Some(count)
    }

    /// Begins the next file, and answers what stands before it: nothing, or a line feed. None: there is no other, or no memory.
    pub(crate) fn begin_next(&mut self) -> Option<&'static [u8]> {
        self.input = Some(self.waiting.pop()?);
        let between: &'static [u8] = if self.ends_line { b"" } else { b"\n" };
        self.lines = self.lines.saturating_add(between.len());
        self.ends_line = true;
        let file = self.names.get(self.origins.len())?;
        let lines_before = self.lines;
        self.origins.push(Origin { file, lines_before }).ok()?;
        Some(between)
    }
}

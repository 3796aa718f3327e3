// Rows of a text: scripts, with what is expected of each.

/// A script, and what is expected of it.
#[derive(Clone, Copy)]
pub struct Row<'a> {
    pub title: &'a str,
    pub script: &'a str,
    pub expected: &'a str,
}

/// The rows that are left of a text. A row begins behind a line feed with a line `== TITLE`. Its script stands from the next line
/// up to the line feed before a line `--`, and all behind that line is expected of it, up to the line feed before the next row:
/// an empty line between two rows ends the last line of what is expected, and one before `--` the last line of the script.
#[derive(Drop)]
pub struct Rows<'a> {
    rest: Option<&'a str>,
}

impl<'a> Rows<'a> {
    /// The rows of a text.
    pub fn new(text: &'a str) -> Rows<'a> {
        match text.split_once("\n== ") {
            Some((_, rest)) => Rows { rest: Some(rest) },
            None => Rows { rest: None },
        }
    }

    /// The next row, where one is left that has all its parts.
    pub fn next(&mut self) -> Option<Row<'a>> {
        let rest = self.rest?;
        let row = match rest.split_once("\n== ") {
            Some((row, behind)) => {
                self.rest = Some(behind);
                row
            }
            None => {
                self.rest = None;
                rest
            }
        };
        let (title, parts) = row.split_once('\n')?;
        let (script, expected) = parts.split_once("\n--\n")?;
        Some(Row {
            title,
            script,
            expected,
        })
    }
}

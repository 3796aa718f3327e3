// Scripts that run one after another as one.

use hol_device_adapters::FromCall;
use hol_device_io::read_all;
use hol_explain::{Origin, origin_of};
use hol_model::{Fault, TEXT_BYTES_LIMIT};
use hol_script_commands::cut::{cut, leading_line_feeds, line_feeds};
use holp_files::ScriptFile;
use std::alloc::Global;

/// The text of scripts one behind another, and which of its lines come from which. Each script begins on a line of its own: where
/// the one before does not end with a line feed, one stands between them.
#[derive(Drop)]
pub(crate) struct Scripts<'a> {
    pub(crate) text: Vec<u8>,
    pub(crate) origins: Vec<Origin<'a>>,
    lines: usize,
}

impl<'a> Scripts<'a> {
    // Puts a script behind the others, whose last line is ended.
    fn append(&mut self, name: &'a str, script: &[u8]) -> Result<(), Fault> {
        if !self.text.is_empty() && !self.text.ends_with(b"\n") {
            self.text.push(b'\n')?;
            self.lines = self.lines.saturating_add(1);
        }
        if script.len() > TEXT_BYTES_LIMIT.saturating_sub(self.text.len()) {
            return Err(Fault::TooLong);
        }
        self.origins.push(Origin {
            file: name,
            lines_before: self.lines,
        })?;
        self.text.extend_from_slice(script)?;
        self.lines = self.lines.saturating_add(line_feeds(script));
        Ok(())
    }

    // Reads scripts that are open, and puts each behind the others.
    fn read(
        &mut self,
        alloc: Global,
        names: &[&'a str],
        opened: Vec<ScriptFile>,
    ) -> Result<(), Fault> {
        let mut at = 0usize;
        for file in opened {
            let script = text_of(alloc, file)?;
            if at < names.len() {
                self.append(names[at], &script)?;
            }
            at = at.saturating_add(1);
        }
        Ok(())
    }

    /// The scripts in which refused commands are to be told: none, where there is one or where refusals are explained.
    pub(crate) fn told(&self, explains: bool) -> &[Origin<'a>] {
        if explains || self.origins.len() < 2 {
            &[]
        } else {
            self.origins.as_slice()
        }
    }

    // Tells on standard error of each command that goes on in another script.
    fn tell_all_unended(&self, rt: &HostRuntime) {
        let mut rest = self.text.as_slice();
        let mut line = 1usize;
        for _ in 0..self.text.len() {
            let Some((command, behind)) = cut(rest) else {
                break;
            };
            let begin = line.saturating_add(leading_line_feeds(command));
            line = line.saturating_add(line_feeds(command));
            tell_unended(rt, &self.origins, begin, line);
            rest = behind;
        }
    }
}

/// Tells on standard error of a command that begins and ends on these lines, where that is not in one script.
pub(crate) fn tell_unended(rt: &HostRuntime, origins: &[Origin<'_>], begin: usize, end: usize) {
    let (name, line) = origin_of(origins, begin);
    let (next, _) = origin_of(origins, end);
    if next != name {
        let _ = eprintln!(rt; "{name}:{line}: no `;;` ends this command, which goes on in {next}");
    }
}

// The text of a script that is open.
fn text_of(alloc: Global, mut file: ScriptFile) -> Result<Vec<u8>, Fault> {
    let reads = Box::new(alloc, move |buf: &mut [u8]| file.read(buf))?;
    read_all(alloc, &mut FromCall::new(reads))
}

/// Opens scripts; `-` names standard input. Where refusals are explained, and where there are several scripts, standard error
/// tells which of them is not read, and why. Refused: ReadFault, Memory.
pub(crate) fn open_scripts(
    rt: &HostRuntime,
    names: &[&str],
    explains: bool,
) -> Result<Vec<ScriptFile>, Fault> {
    let tells = explains || names.len() > 1;
    let mut opened = Vec::new(rt.alloc());
    for at in 0..names.len() {
        opened.push(ScriptFile::open(rt, names[at], tells)?)?;
    }
    Ok(opened)
}

/// Reads scripts that were opened under these names, one after another. Standard error tells the commands that go on in another
/// script. Refused: ReadFault, TooLong where all of them are longer than the limit on texts, Memory.
pub(crate) fn read_scripts<'a>(
    rt: &HostRuntime,
    names: &[&'a str],
    opened: Vec<ScriptFile>,
) -> Result<Scripts<'a>, Fault> {
    let mut scripts = Scripts {
        text: Vec::new(rt.alloc()),
        origins: Vec::new(rt.alloc()),
        lines: 0,
    };
    scripts.read(rt.alloc(), names, opened)?;
    if names.len() > 1 {
        scripts.tell_all_unended(rt);
    }
    Ok(scripts)
}

// The file of a script, which can tell why it is not read.

use crate::input::Input;
use hol_model::Fault;
use std::fmt;
use std::io::{self, Write};
use std::rt::Stderr;

/// The file of a script, or standard input. Where it is asked for, standard error tells why the script is not read, which takes
/// no part in how the run ends.
#[derive(Drop)]
pub struct ScriptFile {
    input: Input,
    name: String,
    told: Option<Stderr>,
}

// The line that tells why the file of a script is not read: its name and the system's reason.
#[derive(Clone, Copy)]
struct Unread<'a> {
    script: &'a str,
    reason: &'a io::Error,
}

impl fmt::Display for Unread<'_> {
    fn fmt<W: fmt::Write>(&self, f: &mut fmt::Formatter<W>) -> fmt::Result {
        write!(f, "{}: {}", self.script, self.reason)
    }
}

// Tells, where it is asked for, why the file of a script is not read.
fn tell_reason(told: Option<Stderr>, script: &str, reason: &io::Error) {
    if let Some(mut output) = told {
        let unread = Unread { script, reason };
        let _ = writeln!(output, "{unread}");
    }
}

impl ScriptFile {
    /// Opens the file of a script; `-` names standard input. Where it `tells`, so do its reads. Refused: ReadFault where the
    /// file cannot be opened, Memory.
    pub fn open(rt: &HostRuntime, script: &str, tells: bool) -> Result<ScriptFile, Fault> {
        let told = if tells { Some(rt.stderr()) } else { None };
        let name = String::from_str(rt.alloc(), script)?;
        match Input::open(rt, script) {
            Ok(input) => Ok(ScriptFile { input, name, told }),
            Err(reason) => {
                tell_reason(told, script, &reason);
                Err(Fault::ReadFault)
            }
        }
    }

    /// Reads as what it is reads.
    pub fn read(&mut self, buf: &mut [u8]) -> io::Result<usize> {
        match self.input.read(buf) {
            Ok(count) => Ok(count),
            Err(reason) => {
                tell_reason(self.told, self.name.as_str(), &reason);
                Err(reason)
            }
        }
    }
}

#[cfg(test)]
mod tests {
    use super::*;

    // Whether this is told of a script that is not there.
    fn tells(rt: &HostRuntime, script: &str, line: &str) -> Result<bool, Fault> {
        let Err(reason) = Input::open(rt, script) else {
            return Ok(false);
        };
        let mut told = String::new(rt.alloc());
        let unread = Unread {
            script,
            reason: &reason,
        };
        write!(told, "{unread}")?;
        Ok(told.as_str() == line)
    }

    #[test]
    fn a_script_that_is_not_there_is_named_with_the_reason(rt: HostRuntime) {
        let line = "no/such/script.hol: No such file or directory (os error 2)";
        assert_eq!(rt; tells(&rt, "no/such/script.hol", line), Ok(true));
    }

    #[test]
    fn a_script_that_is_not_there_is_a_read_fault(rt: HostRuntime) {
        let opened = ScriptFile::open(&rt, "no/such/script.hol", false);
        assert!(rt; matches!(opened, Err(Fault::ReadFault)));
    }
}

// In which script each refused command stands.

use hol_explain::{Origin, origin_of};
use std::io::Write;
use std::rt::Stderr;

// How much of a line is looked at: more than the longest `line N: En Name`.
const FRONT: usize = 80;

/// Reads the output of a run, and tells on standard error of each refusal in which script it stands.
#[derive(Drop)]
pub(crate) struct Refusals<'a> {
    origins: &'a [Origin<'a>],
    stderr: Stderr,
    // The front of the line that has begun.
    front: Vec<u8>,
}

// A refusal as a line of output tells it: the line of its command, its number and its name.
#[derive(Clone, Copy)]
struct Refusal<'a> {
    line: usize,
    number: &'a str,
    name: &'a str,
}

// The refusal that a line of output tells: `line N: En Name`, with more behind it or not. No other line begins so: where `line` is a
// constant, no number stands behind it.
fn refusal_in(output: &str) -> Option<Refusal<'_>> {
    let (line, refusal) = output.strip_prefix("line ")?.split_once(": ")?;
    let line = line.parse::<usize>().ok()?;
    let mut words = refusal.split_whitespace();
    let number = words.next()?;
    let name = words.next()?;
    Some(Refusal { line, number, name })
}

impl Refusals<'_> {
    /// A reader of an output whose lines come from these scripts; of no scripts, nothing is told.
    pub(crate) fn new<'a>(rt: &HostRuntime, origins: &'a [Origin<'a>]) -> Refusals<'a> {
        Refusals {
            origins,
            stderr: rt.stderr(),
            front: Vec::new(rt.alloc()),
        }
    }

    // Tells of a refusal, if the line is one, and begins the next line.
    fn end_line(&mut self) {
        if let Ok(output) = str::from_utf8(&self.front) {
            if let Some(refusal) = refusal_in(output) {
                let (file, line) = origin_of(self.origins, refusal.line);
                let number = refusal.number;
                let name = refusal.name;
                let mut stderr = self.stderr;
                let _ = writeln!(stderr, "{file}:{line}: {number} {name}");
            }
        }
        self.front.clear();
    }

    /// Reads what stands next in the output. A byte without memory is passed over.
    pub(crate) fn watch(&mut self, bytes: &[u8]) {
        if self.origins.is_empty() {
            return;
        }
        for byte in bytes {
            if *byte == b'\n' {
                self.end_line();
            } else if self.front.len() < FRONT {
                let _ = self.front.push(*byte);
            }
        }
    }
}

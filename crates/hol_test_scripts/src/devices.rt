// Runs, conversations and the checker over devices that fail or do not end.
use crate::runs::{Setting, run_dripping, run_source};
use hol_check::check;
use hol_model::Fault;
use hol_test_sample_devices::{Drips, Endless, Rows};
use std::alloc::Global;

// Commands and their answers, with the script of these commands, its output and its log.
#[derive(Drop)]
struct Session<'a> {
    turns: &'a str,
    script: Vec<u8>,
    output: Vec<u8>,
    log: Vec<u8>,
}

// What a run reads or writes.
#[derive(Clone, Copy)]
enum Device {
    Script,
    Output,
    Log,
}

impl<'a> Session<'a> {
    // The session of these commands and answers.
    fn new(alloc: Global, turns: &'a str) -> Result<Session<'a>, Fault> {
        let mut script = Vec::new(alloc);
        let mut output = Vec::new(alloc);
        let mut rows = Rows::new(turns);
        for _ in 0..turns.len() {
            let Some(row) = rows.next() else {
                break;
            };
            script.extend_from_slice(row.script.as_bytes())?;
            output.extend_from_slice(row.expected.as_bytes())?;
        }
        let left = run_dripping(alloc, &script, Setting::logged(false));
        Ok(Session {
            turns,
            script,
            output,
            log: left.log,
        })
    }

    // Whether a run has the output and the log.
    fn is_right(&self, alloc: Global, is_conversation: bool) -> bool {
        let left = run_dripping(alloc, &self.script, Setting::logged(is_conversation));
        left.told.refusal == None
            && left.told.log_refusal == None
            && left.output == self.output
            && left.log == self.log
    }

    // The answers to the commands among so many of the first bytes.
    fn answers_before(&self, alloc: Global, count: usize) -> Result<Vec<u8>, Fault> {
        let mut answers = Vec::new(alloc);
        let mut rows = Rows::new(self.turns);
        let mut end = 0usize;
        for _ in 0..self.turns.len() {
            let Some(row) = rows.next() else {
                break;
            };
            end = end.saturating_add(row.script.len());
            if end <= count && row.script.ends_with(";;") {
                answers.extend_from_slice(row.expected.as_bytes())?;
            }
        }
        Ok(answers)
    }

    // Whether a run whose source fails behind so many bytes writes no log, and what a conversation has answered, or nothing.
    fn stops_reading(&self, alloc: Global, setting: Setting) -> Result<bool, Fault> {
        let answered = if setting.is_conversation {
            setting.reads
        } else {
            0
        };
        let answers = self.answers_before(alloc, answered)?;
        let left = run_dripping(alloc, &self.script, setting);
        Ok(
            left.told.refusal == Some(Fault::ReadFault)
                && left.output == answers
                && left.log.is_empty(),
        )
    }

    // Whether a run whose output has room for so many bytes writes that front of it, and no log.
    fn stops_writing(&self, alloc: Global, setting: Setting) -> bool {
        let left = run_dripping(alloc, &self.script, setting);
        left.told.refusal == Some(Fault::WriteFault)
            && self.output.get(..setting.output_room) == Some(left.output.as_slice())
            && left.log.is_empty()
    }

    // Whether a run whose log has room for so many bytes writes its whole output, and that front of its log.
    fn stops_logging(&self, alloc: Global, setting: Setting) -> bool {
        let left = run_dripping(alloc, &self.script, setting);
        left.told.refusal == None
            && left.told.log_refusal == Some(Fault::WriteFault)
            && left.output == self.output
            && self.log.get(..setting.log_room) == Some(left.log.as_slice())
    }

    // Whether a run with a device that fails behind so many bytes writes what it is to write then.
    fn stops(
        &self,
        alloc: Global,
        is_conversation: bool,
        device: Device,
        bytes: usize,
    ) -> Result<bool, Fault> {
        let mut setting = Setting::logged(is_conversation);
        match device {
            Device::Script => {
                setting.reads = bytes;
                self.stops_reading(alloc, setting)
            }
            Device::Output => {
                setting.output_room = bytes;
                Ok(self.stops_writing(alloc, setting))
            }
            Device::Log => {
                setting.log_room = bytes;
                Ok(self.stops_logging(alloc, setting))
            }
        }
    }

    // How many bytes of a device, from the first one on, may be refused with what is to be written then.
    fn count_refused(
        &self,
        alloc: Global,
        is_conversation: bool,
        device: Device,
    ) -> Result<usize, Fault> {
        let length = match device {
            Device::Script => self.script.len(),
            Device::Output => self.output.len(),
            Device::Log => self.log.len(),
        };
        for bytes in 0..length {
            if !self.stops(alloc, is_conversation, device, bytes)? {
                return Ok(bytes);
            }
        }
        Ok(length)
    }
}

// Prints whether a whole run of a session is as expected, and how many reads and bytes may be refused.
fn print_counts(
    rt: &HostRuntime,
    session: &Session<'_>,
    is_conversation: bool,
) -> anyhow::Result<()> {
    let alloc = rt.alloc();
    let is_right = session.is_right(alloc, is_conversation);
    let reads = session.count_refused(alloc, is_conversation, Device::Script)?;
    let writes = session.count_refused(alloc, is_conversation, Device::Output)?;
    let logged = session.count_refused(alloc, is_conversation, Device::Log)?;
    println!(rt;
        "as a conversation: {is_conversation}, right: {is_right}, {reads} reads, {writes} bytes of output and {logged} bytes of the log refused in turn"
    )?;
    Ok(())
}

/// Prints what runs and conversations of a session's rows come to.
pub(crate) fn print_session(rt: &HostRuntime, turns: &str) -> anyhow::Result<()> {
    let session = Session::new(rt.alloc(), turns)?;
    print_counts(rt, &session, false)?;
    print_counts(rt, &session, true)
}

// What a run of a script without an end is refused for, where it writes nothing.
fn refusal_of_endless(alloc: Global) -> Option<Fault> {
    let left = run_source(alloc, Endless, Setting::logged(false));
    if left.output.is_empty() && left.log.is_empty() {
        left.told.refusal
    } else {
        None
    }
}

fn print_refusal(rt: &HostRuntime, name: &str, refusal: Option<Fault>) -> anyhow::Result<()> {
    match refusal {
        Some(fault) => println!(rt; "{name}: {fault}")?,
        None => println!(rt; "{name}: accepted")?,
    }
    Ok(())
}

/// Prints what is refused of sources that do not end, and of a log whose first line is no header and whose source fails behind it.
pub(crate) fn print_refusals(rt: &HostRuntime) -> anyhow::Result<()> {
    let alloc = rt.alloc();
    let endless = check(alloc, &mut Endless).err();
    let broken = check(alloc, &mut Drips::new(b"\n\n", 1)).err();
    print_refusal(rt, "a script without an end", refusal_of_endless(alloc))?;
    print_refusal(rt, "a log without an end", endless)?;
    print_refusal(rt, "a faulty log that breaks off", broken)
}

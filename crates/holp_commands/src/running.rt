// Runs scripts over the host of the program.
ghost use Rattle.std.specs.Prelude.{◌≡◌, false};

use crate::hosting::{host, host_names};
use crate::laws::logs_are_checked;
use crate::options::Options;
use crate::output::Output;
use crate::scripts::{Scripts, open_scripts, read_scripts};
use hol_device_adapters::{FromRead, IntoCall, IntoWrite};
use hol_explain::{Devices, Ended, Script, Walk, explain, run};
use hol_model::{Fault, Sink};
use holp_goals::View;
use std::cell::RefCell;
use std::fs::{self, File};
use std::io::Write;
use std::mem::forget;

/// The file of this name, made empty, to be written.
pub(crate) fn create(rt: &HostRuntime, name: &str) -> Result<File, Fault> {
    match fs::create(rt, name) {
        Ok(file) => Ok(file),
        Err(_) => Err(Fault::WriteFault),
    }
}

// Explains on standard error the commands that a run of a script refused, of which there are so many, and tells where messages are of
// others.
fn explain_run(rt: &HostRuntime, script: &Script<'_>, refused: u64) {
    let alloc = rt.alloc();
    let mut output = rt.stderr();
    let Ok(writes) = Box::new(alloc, move |piece: &[u8]| output.write(piece)) else {
        return;
    };
    let functions = host();
    let walk = Walk::new(alloc, script, &functions);
    match explain(&walk, &mut IntoCall::new(writes)) {
        Ok(count) if count != refused => {
            let _ = eprintln!(rt;
                "note: the run refused {refused} commands, and {count} when it was done again to be explained: a function of the host answers otherwise each time"
            );
        }
        _ => {}
    }
}

/// How many commands were refused in a session that has ended. The program ends, and the session goes with its memory, as one.
pub(crate) fn refused_in(ended: Ended) -> Result<u64, Fault> {
    let progress = ended.whole()?;
    let refused = progress.summary.refused;
    forget(progress);
    Ok(refused)
}

// Runs a script over the host of the program, and answers how many of its commands were refused. Where these are to be explained,
// what is said of them, and noted of others, is written to standard error behind the run, and takes no part in how it ends.
fn run_with<W: Sink + Drop, L: Sink + Drop>(
    rt: &HostRuntime,
    script: &Script<'_>,
    options: Options,
    writer: W,
    log: L,
    wants_log: bool,
) -> Result<u64, Fault>
    requires writer_unfailed { W.has_failed writer ≡ false }
    requires log_unfailed { L.has_failed log ≡ false }
{
    let alloc = rt.alloc();
    let functions = host();
    let mut devices = Devices {
        reader: FromRead::new(script.text),
        writer,
        log,
        wants_log,
    };
    if options.tells_records {
        let walk = Walk::of_records(alloc, script, &functions);
        return explain(&walk, &mut devices.writer);
    }
    let ended = run(alloc, &mut devices, &functions)?;
    if !options.explains {
        return refused_in(ended);
    }
    let progress = ended.whole()?;
    let refused = progress.summary.refused;
    // The session is let go before its script is run once more.
    drop(progress);
    explain_run(rt, script, refused);
    Ok(refused)
}

// Runs scripts as one, and answers how many of their commands were refused. Standard error tells where these stand, or, where it
// is to explain them, why they were refused.
fn run_over<L: Sink + Drop>(
    rt: &HostRuntime,
    scripts: &Scripts<'_>,
    options: Options,
    log: L,
    wants_log: bool,
) -> Result<u64, Fault>
    requires { L.has_failed log ≡ false }
{
    let host_names = host_names(rt.alloc())?;
    let script = Script {
        origins: scripts.origins.as_slice(),
        text: scripts.text.as_slice(),
        host_names: &host_names,
    };
    let view = if options.shows_goals {
        Some(RefCell::new(View::new(rt.alloc(), &scripts.text)?))
    } else {
        None
    };
    let is_told = options.explains || options.tells_records;
    let writer = Output::new(rt, scripts.told(is_told), view.as_ref());
    run_with(rt, &script, options, writer, log, wants_log)
}

/// Runs scripts as one, and answers how many of their commands were refused. Where a log is asked for, its file is made once the
/// scripts are open, before they are read.
pub(crate) fn run_scripts(
    rt: &HostRuntime,
    names: &[&str],
    options: Options,
    log: Option<&str>,
) -> Result<u64, Fault> {
    logs_are_checked();
    let opened = open_scripts(rt, names, options.explains)?;
    let Some(log) = log else {
        let scripts = read_scripts(rt, names, opened)?;
        let no_log = IntoWrite::new(Vec::new(rt.alloc()));
        return run_over(rt, &scripts, options, no_log, false);
    };
    let mut file = create(rt, log)?;
    let scripts = read_scripts(rt, names, opened)?;
    let logs = Box::new(rt.alloc(), move |piece: &[u8]| file.write(piece))?;
    run_over(rt, &scripts, options, IntoCall::new(logs), true)
}

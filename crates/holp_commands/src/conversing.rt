// A conversation over scripts and standard input.
ghost use Rattle.std.specs.Prelude.{◌≡◌, false};

use crate::console::Console;
use crate::feed::Feed;
use crate::hosting::{host, host_names};
use crate::laws::logs_are_checked;
use crate::output::Output;
use crate::running::{create, refused_in};
use crate::scripts::open_scripts;
use crate::words::VERSION;
use hol_device_adapters::{IntoCall, IntoWrite};
use hol_explain::{Devices, converse};
use hol_model::{Fault, Sink};
use holp_files::ScriptFile;
use holp_goals::View;
use std::cell::RefCell;
use std::io::{IsTerminal, Write};
use std::mem::forget;

// What the commands at a terminal are told to stand in.
const TERMINAL: &str = "input";

// Converses over a feed with the host of the program, and answers how many of the commands were refused. Goals are laid out on
// standard output, and messages written to standard error.
fn converse_with<'a, 'b, L: Sink + Drop>(
    rt: &'a HostRuntime,
    host_names: &'b [String],
    view: &'b RefCell<View>,
    feed: Feed<'a>,
    log: L,
    wants_log: bool,
) -> Result<u64, Fault>
    requires { L.has_failed log ≡ false }
{
    let host = host();
    let prompts = rt.stdin().is_terminal();
    if prompts {
        let ending = if wants_log {
            ", and writes the log"
        } else {
            ""
        };
        let _ = eprintln!(rt; "holp {VERSION}. Each command ends with `;;`. Ctrl-D ends{ending}.");
    }
    let mut devices = Devices {
        reader: Console::new(rt, &host, host_names, view, feed, prompts),
        writer: Output::new(rt, &[], Some(view)),
        log,
        wants_log,
    };
    let ended = converse(rt.alloc(), &mut devices, &host);
    let Devices { mut reader, .. } = devices;
    if ended.is_ok() {
        // What stands behind the last `;;` is explained.
        reader.end();
    }
    // The program ends, and the session goes with its memory, as one.
    forget(reader);
    refused_in(ended?)
}

// The same, with the names of the host's functions, and a view that knows no declarations yet.
fn converse_hosted<'a, L: Sink + Drop>(
    rt: &'a HostRuntime,
    feed: Feed<'a>,
    log: L,
    wants_log: bool,
) -> Result<u64, Fault>
    requires { L.has_failed log ≡ false }
{
    let alloc = rt.alloc();
    let host_names = host_names(alloc)?;
    let view = RefCell::new(View::new(alloc, b"")?);
    converse_with(rt, &host_names, &view, feed, log, wants_log)
}

// The same, with a log whose file is made first.
fn converse_logged<'a>(rt: &'a HostRuntime, feed: Feed<'a>, log: &str) -> Result<u64, Fault> {
    let mut file = create(rt, log)?;
    let logs = Box::new(rt.alloc(), move |piece: &[u8]| file.write(piece))?;
    converse_hosted(rt, feed, IntoCall::new(logs), true)
}

/// Runs scripts, and then the commands that come on standard input, and answers how many were refused. Where a log is asked for, its
/// file is made once the scripts are open, and written at the end of the input.
pub(crate) fn converse_over(
    rt: &HostRuntime,
    scripts: &[&str],
    log: Option<&str>,
) -> Result<u64, Fault> {
    logs_are_checked();
    let alloc = rt.alloc();
    let input = if rt.stdin().is_terminal() {
        TERMINAL
    } else {
        "-"
    };
    let mut names = Vec::new(alloc);
    names.extend_from_slice(scripts)?;
    names.push(input)?;
    let mut opened = open_scripts(rt, scripts, true)?;
    let source = ScriptFile::open(rt, "-", true)?;
    opened.push(source)?;
    let feed = Feed::new(&names, opened, Vec::new(alloc));
    match log {
        Some(log) => converse_logged(rt, feed, log),
        None => converse_hosted(rt, feed, IntoWrite::new(Vec::new(alloc)), false),
    }
}

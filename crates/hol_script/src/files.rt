// Scripts that stand in files, run to standard output. At this edge of a program nothing is claimed: what is written is told on `run`.

use crate::devices::Devices;
use crate::progress::Progress;
use crate::runner::run;
use hol_device_adapters::{FromCall, IntoCall, IntoWrite};
use hol_host::Refiners;
use hol_model::Fault;
use std::fs;
use std::io::{Read, Write};

/// Runs the script in a file over a host's functions, writes its output to standard output, and makes no log. Refused: ReadFault
/// where the file cannot be opened; as `run`.
pub fn run_file<H: Refiners>(rt: &HostRuntime, name: &str, host: &H) -> Result<Progress, Fault> {
    let alloc = rt.alloc();
    let Ok(mut script) = fs::open(rt, name) else {
        return Err(Fault::ReadFault);
    };
    let reads = Box::new(alloc, move |buf: &mut [u8]| script.read(buf))?;
    let mut output = rt.stdout();
    let writes = Box::new(alloc, move |piece: &[u8]| output.write(piece))?;
    let mut devices = Devices {
        reader: FromCall::new(reads),
        writer: IntoCall::new(writes),
        log: IntoWrite::new(Vec::new(alloc)),
        wants_log: false,
    };
    let ended = run(alloc, &mut devices, host)?;
    ended.whole()
}

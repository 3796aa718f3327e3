// Runs whose sinks keep what they take.
ghost use Rattle.std.specs.Prelude.{IfOk};
ghost use Rattle.hol_script.specs.Managers.{IsManager};

use crate::sinks::Kept;
use hol_device_adapters::FromRead;
use hol_host::Refiners;
use hol_model::Fault;
use hol_script::{Devices, Ended, run};
use std::alloc::Global;

/// How a run has ended, and what it has written.
#[derive(Drop)]
pub struct Ran {
    pub ended: Ended,
    pub output: Vec<u8>,
    pub log: Vec<u8>,
}

/// Runs a script over a host, with its log where one is wanted. Refused as the run.
pub fn run_kept<H: Refiners>(
    alloc: Global,
    script: &[u8],
    wants_log: bool,
    host: &H,
) -> Result<Ran, Fault>
    ensures { IfOk result (λ ran. IsManager ran.ended.progress.manager) }
{
    let mut devices = Devices {
        reader: FromRead::new(script),
        writer: Kept::new(alloc),
        log: Kept::new(alloc),
        wants_log,
    };
    let ended = run(alloc, &mut devices, host)?;
    let Devices { writer, log, .. } = devices;
    Ok(Ran {
        ended,
        output: writer.bytes,
        log: log.bytes,
    })
}

// Runs of scripts, and conversations, over devices.
ghost use Rattle.std.specs.Prelude.{◌≡◌, false};

use crate::counting::{conversions, refiners};
use hol_host::Table;
use hol_model::{Fault, Source};
use hol_script::{Devices, Ended, Summary, converse, run};
use hol_test_sample_devices::{Drips, Kept, run_kept};
use hol_test_sample_host::SAMPLES;
use std::alloc::Global;
use std::cell::Cell;

/// Whether a script is run or answered as it comes, with a log or without one, how many bytes of it can be read, and how many its
/// output and its log have room for.
#[derive(Clone, Copy)]
pub(crate) struct Setting {
    pub is_conversation: bool,
    pub wants_log: bool,
    pub reads: usize,
    pub output_room: usize,
    pub log_room: usize,
}

impl Setting {
    /// Bytes and room enough, and a log.
    pub(crate) fn logged(is_conversation: bool) -> Setting {
        Setting {
            is_conversation,
            wants_log: true,
            reads: usize::MAX,
            output_room: usize::MAX,
            log_room: usize::MAX,
        }
    }

    /// The same without a log.
    pub(crate) fn unlogged(is_conversation: bool) -> Setting {
        let mut setting = Setting::logged(is_conversation);
        setting.wants_log = false;
        setting
    }
}

/// What a run has answered: what the run or its log is refused for, and what it counted, which is nothing where it is refused.
#[derive(Clone, Copy)]
pub(crate) struct Told {
    pub refusal: Option<Fault>,
    pub log_refusal: Option<Fault>,
    pub summary: Summary,
}

/// What a run has answered and written.
#[derive(Drop)]
pub(crate) struct Left {
    pub told: Told,
    pub output: Vec<u8>,
    pub log: Vec<u8>,
}

fn told_of(answer: Result<Ended, Fault>) -> Told {
    match answer {
        Ok(ended) => Told {
            refusal: None,
            log_refusal: ended.logged.err(),
            summary: ended.progress.summary,
        },
        Err(fault) => Told {
            refusal: Some(fault),
            log_refusal: None,
            summary: Summary {
                accepted: 0,
                refused: 0,
                printed: 0,
            },
        },
    }
}

/// Runs the script of a source.
pub(crate) fn run_source<R: Source + Drop>(alloc: Global, reader: R, setting: Setting) -> Left
    requires unfailed { R.has_failed reader ≡ false }
{
    let mut devices = Devices {
        reader,
        writer: Kept::with_room(alloc, setting.output_room),
        log: Kept::with_room(alloc, setting.log_room),
        wants_log: setting.wants_log,
    };
    let answer = if setting.is_conversation {
        converse(alloc, &mut devices, &SAMPLES)
    } else {
        run(alloc, &mut devices, &SAMPLES)
    };
    let Devices { writer, log, .. } = devices;
    Left {
        told: told_of(answer),
        output: writer.bytes,
        log: log.bytes,
    }
}

/// Runs a script that is read byte by byte.
pub(crate) fn run_dripping(alloc: Global, script: &[u8], setting: Setting) -> Left {
    run_source(alloc, Drips::new(script, setting.reads), setting)
}

/// What a script writes over a host that counts its calls.
pub(crate) fn run_counting(alloc: Global, script: &[u8]) -> Result<Vec<u8>, Fault> {
    let calls = Cell::new(0u32);
    let refiners = refiners(&calls);
    let conversions = conversions(&calls);
    let host = Table {
        refiners: &refiners,
        conversions: &conversions,
    };
    let ran = run_kept(alloc, script, false, &host)?;
    Ok(ran.output)
}

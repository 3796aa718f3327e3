// Which entries a recorder keeps, and whether a run keeps them.
use hol_journal::{Inference, Recorder};
use hol_model::Fault;
use hol_test_sample_devices::run_kept;
use hol_test_sample_host::SAMPLES;
use std::alloc::Global;

// A script of one theorem.
const SCRIPT: &[u8] = b"thm a = REFL `(x:bool)` ;;";

// A recorder of a declared type and so many axioms.
fn recorder_of(alloc: Global, axioms: usize) -> Result<Recorder, Fault> {
    let mut recorder = Recorder::new(alloc)?;
    recorder.new_type("num")?;
    make(&mut recorder, axioms)?;
    Ok(recorder)
}

// So many axioms more.
fn make(recorder: &mut Recorder, axioms: usize) -> Result<(), Fault> {
    for _ in 0..axioms {
        recorder.infer(Inference::Eta)?;
    }
    Ok(())
}

// Which of the first eight entries are kept, entry 0 in the highest bit.
fn kept(recorder: &Recorder) -> u8 {
    let mut kept = 0u8;
    for number in 0..8 {
        kept <<= 1;
        if matches!(recorder.stored(number), Ok(Some(_))) {
            kept |= 1;
        }
    }
    kept
}

// Those of a declared type and three axioms; where entries from 2 on are given back; with two axioms more; where those from 6 on are
// given back, of which there are none; and where all are, but that a declaration stays.
const WANTED: [u8; 5] = [
    0b1111_0000,
    0b1100_0000,
    0b1100_1100,
    0b1100_1100,
    0b1000_0000,
];

// Whether those that are given back go, and no others, and those that come later are kept at their numbers.
fn gives_back(alloc: Global) -> Result<bool, Fault> {
    let mut recorder = recorder_of(alloc, 3)?;
    let all = kept(&recorder);
    recorder.give_back(2);
    let first = kept(&recorder);
    make(&mut recorder, 2)?;
    let later = kept(&recorder);
    recorder.give_back(6);
    let same = kept(&recorder);
    recorder.give_back(0);
    let declared = kept(&recorder);
    Ok([all, first, later, same, declared] == WANTED)
}

// Whether none is kept where all are let go, nor any that comes later.
fn forgets(alloc: Global) -> Result<bool, Fault> {
    let mut recorder = recorder_of(alloc, 1)?;
    recorder.forget();
    make(&mut recorder, 1)?;
    Ok(recorder.entries() == 3 && kept(&recorder) == 0)
}

// Whether a log could still be written behind a run of a script of one theorem, by whether the run was to write one.
fn keeps_entries(alloc: Global, wants_log: bool) -> Result<bool, Fault> {
    let ran = run_kept(alloc, SCRIPT, wants_log, &SAMPLES)?;
    Ok(ran.ended.progress.manager.log_text(alloc, &[]).is_ok())
}

/// Prints which entries are kept.
pub(crate) fn print_kept(rt: &HostRuntime) -> anyhow::Result<()> {
    let alloc = rt.alloc();
    let with_log = keeps_entries(alloc, true)?;
    let without_log = keeps_entries(alloc, false)?;
    println!(rt; "entries kept: {with_log} with a log, {without_log} without one")?;
    let goes = gives_back(alloc)?;
    let is_let_go = forgets(alloc)?;
    println!(rt; "entries that are given back go: {goes}, all of them: {is_let_go}")?;
    Ok(())
}

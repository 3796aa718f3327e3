// What scripts and logs come to.
use crate::logs::{claims_of, entries_of, fronts_of, parts_of};
use crate::runs::{Left, Setting, run_counting, run_dripping, run_source};
use crate::told::{
    ONE_FILE, THREE_FILES, message_without_memory, messages, records, texts_of_records,
};
use hol_device_adapters::FromRead;
use hol_model::Fault;
use std::alloc::Global;

/// What is asked of a script, or of a log (the last three).
#[derive(Clone, Copy)]
pub(crate) enum Question {
    /// What its run writes.
    Run,
    /// What it writes as a conversation that reads byte by byte.
    Conversation,
    /// What its run counts.
    Counts,
    CountsOfConversation,
    /// What it writes over a host that counts its calls.
    Calls,
    Messages,
    MessagesOfFiles,
    MessageWithoutMemory,
    Records,
    TextsOfRecords,
    Log,
    EntriesOfLog,
    ClaimsOfLog,
    /// The claims of the log.
    Claims,
    /// What the checker says of each front of it.
    Fronts,
    /// The parts of its claims.
    Parts,
}

// What a run without a log leaves.
fn left_by(alloc: Global, script: &[u8]) -> Left {
    run_source(alloc, FromRead::new(script), Setting::unlogged(false))
}

// What a conversation without a log leaves.
fn left_by_conversation(alloc: Global, script: &[u8]) -> Left {
    run_dripping(alloc, script, Setting::unlogged(true))
}

// The log of a run.
fn log_of(alloc: Global, script: &[u8]) -> Vec<u8> {
    run_dripping(alloc, script, Setting::logged(false)).log
}

// What a run has written.
fn output_of(left: Left) -> Result<Vec<u8>, Fault> {
    match left.told.refusal {
        None => Ok(left.output),
        Some(fault) => Err(fault),
    }
}

// What a run has counted.
fn counts_of(alloc: Global, left: &Left) -> Result<Vec<u8>, Fault> {
    let summary = left.told.summary;
    let counted = format!(in alloc;
        "accepted {}, refused {}, printed {}\n",
        summary.accepted, summary.refused, summary.printed
    )?;
    Ok(counted.into_bytes())
}

/// What a script or a log comes to.
pub(crate) fn answer(alloc: Global, question: Question, text: &[u8]) -> Result<Vec<u8>, Fault> {
    match question {
        Question::Run => output_of(left_by(alloc, text)),
        Question::Conversation => output_of(left_by_conversation(alloc, text)),
        Question::Counts => counts_of(alloc, &left_by(alloc, text)),
        Question::CountsOfConversation => counts_of(alloc, &left_by_conversation(alloc, text)),
        Question::Calls => run_counting(alloc, text),
        Question::Messages => messages(alloc, &ONE_FILE, text),
        Question::MessagesOfFiles => messages(alloc, &THREE_FILES, text),
        Question::MessageWithoutMemory => message_without_memory(alloc, text),
        Question::Records => records(alloc, text),
        Question::TextsOfRecords => texts_of_records(alloc, text),
        Question::Log => Ok(log_of(alloc, text)),
        Question::EntriesOfLog => entries_of(alloc, &log_of(alloc, text)),
        Question::ClaimsOfLog => claims_of(alloc, &log_of(alloc, text)),
        Question::Claims => claims_of(alloc, text),
        Question::Fronts => fronts_of(alloc, text),
        Question::Parts => parts_of(alloc, text),
    }
}

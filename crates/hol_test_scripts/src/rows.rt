// The rows of files, tried or printed by the endings of these.
use crate::answers::{Question, answer};
use crate::bounds::print_bounds;
use crate::devices::print_session;
use crate::logs::or_refusal;
use crate::runs::{Left, Setting, run_dripping};
use hol_model::Fault;
use hol_test_sample_devices::{Row, Rows, expanded, push_filled};
use std::alloc::Global;
use std::fs;
use std::io::Write;

// What is done with the rows of a file.
#[derive(Clone, Copy)]
enum Kind {
    /// They are printed.
    Read,
    /// What commands leave at the marks of a script is printed.
    Refused,
    /// A script has these claims with each number at its marks.
    Sizes,
    /// A script writes this, at once, as a conversation, and as the texts of its records.
    Rows,
    /// The same but for the records.
    Runs,
    /// The run of a script counts this, at once and as a conversation.
    Counts,
    /// A script or a log comes to this.
    Asked(Question),
}

fn kind_of(ending: &str) -> Kind {
    match ending {
        "read" => Kind::Read,
        "refused" => Kind::Refused,
        "sizes" => Kind::Sizes,
        "runs" => Kind::Runs,
        "counts" => Kind::Counts,
        "calls" => Kind::Asked(Question::Calls),
        "messages" => Kind::Asked(Question::Messages),
        "files" => Kind::Asked(Question::MessagesOfFiles),
        "memory" => Kind::Asked(Question::MessageWithoutMemory),
        "records" => Kind::Asked(Question::Records),
        "logs" => Kind::Asked(Question::Log),
        "entries" => Kind::Asked(Question::EntriesOfLog),
        "claims" => Kind::Asked(Question::ClaimsOfLog),
        "checked" => Kind::Asked(Question::Claims),
        "fronts" => Kind::Asked(Question::Fronts),
        "parts" => Kind::Asked(Question::Parts),
        _ => Kind::Rows,
    }
}

// Prints the title of a row if its script or log comes to something else than is expected, with that.
fn try_answer(rt: &HostRuntime, question: Question, row: &Row<'_>) -> anyhow::Result<()> {
    let alloc = rt.alloc();
    let text = expanded(alloc, row.script)?;
    let expected = expanded(alloc, row.expected)?;
    let comes_out = or_refusal(alloc, answer(alloc, question, text.as_bytes()))?;
    if comes_out.as_slice() == expected.as_bytes() {
        return Ok(());
    }
    println!(rt; "== {}", row.title)?;
    rt.stdout().write_all(comes_out.as_slice())?;
    Ok(())
}

// Tries the claims of a script with each number below 100 at each mark.
fn try_sizes(rt: &HostRuntime, row: &Row<'_>) -> anyhow::Result<()> {
    for size in 0..100 {
        let digits = format!(in rt.alloc(); "{size}")?;
        let script = row.script.replace(rt.alloc(), '#', digits.as_str())?;
        let expected = row.expected.replace(rt.alloc(), '#', digits.as_str())?;
        let sized = Row {
            title: row.title,
            script: script.as_str(),
            expected: expected.as_str(),
        };
        try_answer(rt, Question::ClaimsOfLog, &sized)?;
    }
    Ok(())
}

// A run of a marked script with these commands at its marks.
fn run_filled(alloc: Global, marked: &str, commands: &[u8]) -> Result<Left, Fault> {
    let mut script = Vec::new(alloc);
    push_filled(&mut script, marked, commands)?;
    Ok(run_dripping(alloc, &script, Setting::logged(false)))
}

// Prints what the commands of a row leave at the marks of its script, and whether the log is that of the script without them.
fn print_trace(rt: &HostRuntime, row: &Row<'_>) -> anyhow::Result<()> {
    let plain = run_filled(rt.alloc(), row.script, b"")?;
    let other = run_filled(rt.alloc(), row.script, row.expected.as_bytes())?;
    let is_one_log = plain.log == other.log;
    println!(rt;
        "{}: {} refused, {} printed, one log: {is_one_log}",
        row.title, other.told.summary.refused, other.told.summary.printed
    )?;
    Ok(())
}

fn try_row(rt: &HostRuntime, kind: Kind, row: &Row<'_>) -> anyhow::Result<()> {
    match kind {
        Kind::Read => println!(rt; "[{}][{}][{}]", row.title, row.script, row.expected)?,
        Kind::Refused => print_trace(rt, row)?,
        Kind::Sizes => try_sizes(rt, row)?,
        Kind::Rows => {
            try_answer(rt, Question::Run, row)?;
            try_answer(rt, Question::Conversation, row)?;
            try_answer(rt, Question::TextsOfRecords, row)?;
        }
        Kind::Runs => {
            try_answer(rt, Question::Run, row)?;
            try_answer(rt, Question::Conversation, row)?;
        }
        Kind::Counts => {
            try_answer(rt, Question::Counts, row)?;
            try_answer(rt, Question::CountsOfConversation, row)?;
        }
        Kind::Asked(question) => try_answer(rt, question, row)?,
    }
    Ok(())
}

// Tries each row of a text, and answers how many there are.
fn try_rows(rt: &HostRuntime, kind: Kind, text: &str) -> anyhow::Result<usize> {
    let mut rows = Rows::new(text);
    for count in 0..text.len() {
        let Some(row) = rows.next() else {
            return Ok(count);
        };
        try_row(rt, kind, &row)?;
    }
    Ok(text.len())
}

/// Tries a file, and prints its name with the number of its rows, or what comes of it.
pub(crate) fn try_file(rt: &HostRuntime, name: &str) -> anyhow::Result<()> {
    let ending = match name.rsplit_once('.') {
        Some((_, ending)) => ending,
        None => "",
    };
    let text = fs::read_to_string(rt, name)?;
    match ending {
        "turns" => print_session(rt, text.as_str()),
        "bounds" => print_bounds(rt, text.as_str()),
        _ => {
            let count = try_rows(rt, kind_of(ending), text.as_str())?;
            println!(rt; "{name}: {count}")?;
            Ok(())
        }
    }
}

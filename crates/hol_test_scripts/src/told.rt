// What is told of a script: messages, notes, and records of its commands.
use hol_explain::{Origin, Refused, Script, Walk, explain, explain_refusal};
use hol_model::Fault;
use hol_test_sample_devices::Kept;
use hol_test_sample_host::SAMPLES;
use serde_json::Value;
use std::alloc::Global;

/// The file of a script.
pub(crate) const ONE_FILE: [Origin<'static>; 1] = [Origin {
    file: "s",
    lines_before: 0,
}];

/// The files of a script, of which one has no line.
pub(crate) const THREE_FILES: [Origin<'static>; 3] = [
    Origin {
        file: "a",
        lines_before: 0,
    },
    Origin {
        file: "empty",
        lines_before: 2,
    },
    Origin {
        file: "b",
        lines_before: 2,
    },
];

// The names of the host's functions that messages know.
fn host_names(alloc: Global) -> Result<Vec<String>, Fault> {
    let mut names = Vec::new(alloc);
    for name in ["liar", "peel", "meson"] {
        names.push(String::from_str(alloc, name)?)?;
    }
    Ok(names)
}

/// The messages and notes on a script of these files.
pub(crate) fn messages(
    alloc: Global,
    origins: &[Origin<'_>],
    text: &[u8],
) -> Result<Vec<u8>, Fault> {
    let names = host_names(alloc)?;
    let script = Script {
        origins,
        text,
        host_names: &names,
    };
    let mut writer = Kept::new(alloc);
    let host = SAMPLES;
    let walk = Walk::new(alloc, &script, &host);
    explain(&walk, &mut writer)?;
    Ok(writer.bytes)
}

/// The message on the first command, where there was no memory for it.
pub(crate) fn message_without_memory(alloc: Global, text: &[u8]) -> Result<Vec<u8>, Fault> {
    let script = Script {
        origins: &ONE_FILE,
        text,
        host_names: &[],
    };
    let refused = Refused::plain(Fault::Memory);
    let host = SAMPLES;
    let walk = Walk::new(alloc, &script, &host);
    let message = explain_refusal(&walk, &refused)?;
    let mut told = Vec::new(alloc);
    told.extend_from_slice(message.as_bytes())?;
    Ok(told)
}

/// The records of a script's commands.
pub(crate) fn records(alloc: Global, text: &[u8]) -> Result<Vec<u8>, Fault> {
    let names = host_names(alloc)?;
    let script = Script {
        origins: &ONE_FILE,
        text,
        host_names: &names,
    };
    let mut writer = Kept::new(alloc);
    let host = SAMPLES;
    let walk = Walk::of_records(alloc, &script, &host);
    explain(&walk, &mut writer)?;
    Ok(writer.bytes)
}

// Appends the text of a record, which is a line of JSON.
fn push_text_of(alloc: Global, texts: &mut Vec<u8>, line: &str) -> Result<(), Fault> {
    let Ok(record) = Value::from_str(alloc, line) else {
        return Err(Fault::Syntax);
    };
    let Some(text) = record.get("text").and_then(Value::as_str) else {
        return Err(Fault::Syntax);
    };
    texts.extend_from_slice(text.as_bytes())?;
    Ok(())
}

/// The texts of the records of a script's commands, one behind another.
pub(crate) fn texts_of_records(alloc: Global, text: &[u8]) -> Result<Vec<u8>, Fault> {
    let records = records(alloc, text)?;
    let Ok(lines) = str::from_utf8(&records) else {
        return Err(Fault::Syntax);
    };
    let mut texts = Vec::new(alloc);
    for line in lines.lines() {
        push_text_of(alloc, &mut texts, line)?;
    }
    Ok(texts)
}

// Lines that tell what is said of a refusal.
use crate::messages::Message;
use crate::place::Told;
use hol_model::Fault;
use std::alloc::Global;

/// Puts a line at the end: the place that a message on a refused command is on, the number and the name of the refusal, and what is
/// said of it.
pub fn push_refusal(
    alloc: Global,
    told: &Told<'_>,
    fault: &Fault,
    message: &Message,
    lines: &mut Message,
) {
    let (file, here) = told.located(message.at);
    let line = here.line;
    let column = here.column;
    let number = fault.number();
    let name = fault.name();
    lines.push_made(format!(in alloc; "{file}:{line}:{column}: E{number} {name}: "));
    lines.push_message(message);
    lines.push_str("\n");
}

/// That no mark stands behind a rest, whose first word begins at a place.
pub fn unended(alloc: Global, at: usize) -> Message {
    let mut message = Message::new(alloc);
    message.at = at;
    message.push_str("a command ends with `;;`, and here the script ends before one");
    message
}

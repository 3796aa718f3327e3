// A command of a script, and what it came to, as a line of JSON.
use crate::messages::Message;
use crate::place::{Place, Told};
use hol_model::Fault;
use serde::Serialize;
use serde_json::to_string;
use std::alloc::{AllocError, Global};

#[derive(Drop, Serialize)]
struct Goal<'a> {
    assumptions: Vec<&'a str>,
    conclusion: &'a str,
}

#[derive(Drop, Serialize)]
struct Refusal<'a> {
    number: u8,
    name: &'a str,
    line: usize,
    column: usize,
    message: &'a str,
}

#[derive(Drop, Serialize)]
struct Record<'a> {
    file: &'a str,
    begin: Place,
    end: Place,
    command: &'a str,
    text: &'a str,
    goals: Option<Vec<Goal<'a>>>,
    refusal: Option<Refusal<'a>>,
}

impl Told<'_> {
    // What is told of it, behind what it printed.
    fn record<'a>(
        &'a self,
        text: &'a str,
        goals: Option<Vec<Goal<'a>>>,
        refusal: Option<Refusal<'a>>,
    ) -> Record<'a> {
        let start = self.piece.start(0);
        let end = self.place.behind(self.piece.bytes).behind(self.mark);
        let (file, first) = self.located(start);
        let lines_before = self.place_at(start).line.saturating_sub(first.line);
        Record {
            file,
            begin: first,
            end: Place {
                line: end.line.saturating_sub(lines_before),
                column: end.column,
            },
            command: self.piece.text(0),
            text,
            goals,
            refusal,
        }
    }
}

// A goal, from its line.
fn goal_of<'a>(alloc: Global, line: &'a str, lines: &mut Message) -> Goal<'a> {
    let (before, conclusion) = match line.split_once("?- ") {
        Some(parts) => parts,
        None => ("", line),
    };
    let mut assumptions = Vec::new(alloc);
    for assumption in before.trim_end().split(", ") {
        if !assumption.is_empty() {
            let _pushed = lines.made(assumptions.push(assumption));
        }
    }
    Goal {
        assumptions,
        conclusion,
    }
}

// Puts what is told of a command at the end, as a line.
fn push_record<'a>(
    alloc: Global,
    told: &'a Told<'a>,
    text: &'a str,
    goals: Option<Vec<Goal<'a>>>,
    refusal: Option<Refusal<'a>>,
    lines: &mut Message,
) {
    let record = told.record(text, goals, refusal);
    lines.push_made(to_string(alloc, &record));
    lines.push_str("\n");
}

// The goals of an answer that shows them.
fn goals_of<'a>(alloc: Global, text: &'a str, lines: &mut Message) -> Vec<Goal<'a>> {
    let mut goals = Vec::new(alloc);
    for line in text.lines().skip(1) {
        let goal = goal_of(alloc, line, lines);
        let _pushed = lines.made(goals.push(goal));
    }
    goals
}

/// What an accepted command printed: where that is the open goals, a line that counts them, and a line for each.
#[derive(Clone, Copy)]
pub struct Answer<'a> {
    pub text: &'a str,
    pub shows_goals: bool,
}

/// Puts the line of a command at the end that is accepted.
pub fn push_accepted<'a>(
    alloc: Global,
    told: &'a Told<'a>,
    answer: Answer<'a>,
    lines: &mut Message,
) {
    let goals = if answer.shows_goals {
        Some(goals_of(alloc, answer.text, lines))
    } else {
        None
    };
    push_record(alloc, told, answer.text, goals, None, lines);
}

// What a run prints for a refusal whose command begins on this line.
fn printed_refusal(
    alloc: Global,
    line: usize,
    fault: &Fault,
    row: &str,
) -> Result<String, AllocError> {
    let number = fault.number();
    let name = fault.name();
    format!(in alloc; "line {line}: E{number} {name}{row}\n")
}

// A refusal of which a message is on what stands at an offset.
fn refusal_of<'a>(told: &Told<'_>, fault: &Fault, at: usize, message: &'a str) -> Refusal<'a> {
    let (_file, here) = told.located(at);
    Refusal {
        number: fault.number(),
        name: fault.name(),
        line: here.line,
        column: here.column,
        message,
    }
}

/// Puts the line of a command at the end that is refused, with what is said of it. Behind the name of the refusal a run prints a row.
pub fn push_refused<'a>(
    alloc: Global,
    told: &'a Told<'a>,
    refused: (&Fault, &str),
    message: &'a Message,
    lines: &mut Message,
) {
    let (fault, row) = refused;
    let Some(said) = lines.made(message.text()) else {
        return;
    };
    let line = told.place_at(told.piece.start(0)).line;
    let printed = printed_refusal(alloc, line, fault, row);
    if let Some(text) = lines.made(printed) {
        let refusal = refusal_of(told, fault, message.at, said);
        push_record(alloc, told, &text, None, Some(refusal), lines);
    }
}

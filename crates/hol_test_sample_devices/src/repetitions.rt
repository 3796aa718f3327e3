// Parts of a text that stand in it several times.
use hol_model::Fault;
use std::alloc::Global;

// The marks around a repetition that may hold others, and around one that holds none.
const OUTER: Marks = Marks {
    open: "{{",
    close: "}}",
};

const INNER: Marks = Marks {
    open: "{",
    close: "}",
};

#[derive(Clone, Copy)]
struct Marks {
    open: &'static str,
    close: &'static str,
}

// The first repetition of a text, and what stands around it.
#[derive(Clone, Copy)]
struct Repetition<'a> {
    front: &'a str,
    times: usize,
    piece: &'a str,
    rest: &'a str,
}

fn first_repetition<'a>(text: &'a str, marks: &Marks) -> Option<Repetition<'a>> {
    let (front, behind) = text.split_once(marks.open)?;
    let (times, behind) = behind.split_once('|')?;
    let times = times.parse::<usize>().ok()?;
    let (piece, rest) = behind.split_once(marks.close)?;
    Some(Repetition {
        front,
        times,
        piece,
        rest,
    })
}

// A piece with one number at each `#` and another at each `$`.
fn numbered(alloc: Global, piece: &str, before: usize, left: usize) -> Result<String, Fault> {
    let before = format!(in alloc; "{before}")?;
    let left = format!(in alloc; "{left}")?;
    let half = piece.replace(alloc, '#', before.as_str())?;
    Ok(half.replace(alloc, '$', left.as_str())?)
}

// Appends a piece so many times.
fn push_turns(text: &mut String, alloc: Global, piece: &str, times: usize) -> Result<(), Fault> {
    for turn in 0..times {
        let filled = numbered(alloc, piece, turn, times - 1 - turn)?;
        text.push_str(filled.as_str())?;
    }
    Ok(())
}

fn push_expanded(
    whole: &mut String,
    alloc: Global,
    text: &str,
    marks: &Marks,
) -> Result<(), Fault> {
    let mut rest = text;
    for _ in 0..text.len() {
        let Some(part) = first_repetition(rest, marks) else {
            break;
        };
        whole.push_str(part.front)?;
        push_turns(whole, alloc, part.piece, part.times)?;
        rest = part.rest;
    }
    whole.push_str(rest)?;
    Ok(())
}

/// A text in which `{N|PIECE}` stands for the piece N times, and `{{N|PIECE}}` too, whose piece may hold the former. In a piece `#` is
/// the number of repetitions before, and `$` of those behind. A brace that begins no such part ends the expansion. Refused: Memory.
pub fn expanded(alloc: Global, text: &str) -> Result<String, Fault> {
    let mut half = String::new(alloc);
    push_expanded(&mut half, alloc, text, &OUTER)?;
    let mut whole = String::new(alloc);
    push_expanded(&mut whole, alloc, half.as_str(), &INNER)?;
    Ok(whole)
}

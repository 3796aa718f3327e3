// Where a text stops being a command.
use crate::grammar::{Reading, also_at, expected, is_choice, is_command, push_words, read};
use crate::habits::{absent, is_ending, written_for};
use crate::known::{Known, is_type_variable, nearest, push_name};
use crate::messages::Message;
use crate::no_memory::NoMemory;
use crate::piece::{Piece, between};
use crate::scanner::Kind;
use crate::tables::line_of;
use std::alloc::Global;

// What is said of a text that keeps to the grammar and is no command.
const OTHERWISE: &str =
    "the text is no command: it nests deeper than a command may, a number in it is too large, or a word is not of its kind";

// What is said of a word for the end of a session.
const ENDING: &str = "; the end of the input ends the session (Ctrl-D at a terminal)";

// What is said of parentheses behind the word of a command.
const CALLS: &str = "\
b ; `b` is written without `()`
p ; `p` is written without `()`";

// Puts what stands at a place in the list at the end.
fn push_found(piece: &Piece<'_>, at: usize, message: &mut Message) {
    match piece.kind(at) {
        Kind::End => message.push_texts(&["the end of the ", piece.called]),
        Kind::Quote => message.push_str("a quoted text"),
        Kind::Unclosed => message.push_str("a backquote without another behind it"),
        Kind::Odd if piece.text(at).len() == 1 => {
            message.push_texts(&["`", piece.text(at), "`, which begins no word"]);
        }
        Kind::Odd => message.push_str("a byte that is not ASCII"),
        _ => message.push_texts(&["`", piece.text(at), "`"]),
    }
}

// Puts the words that may stand at a symbol at the end.
fn push_words_at(
    alloc: Global,
    known: &Known,
    symbol: &str,
    words: &mut Vec<String>,
) -> Result<(), NoMemory> {
    if symbol == "type" {
        for name in &known.types {
            push_name(alloc, words, name.as_str())?;
        }
    }
    push_words(alloc, words, symbol)?;
    push_words(alloc, words, also_at(symbol))
}

// What is said of a word that does not stand at a symbol for a mistake.
fn remark(piece: &Piece<'_>, at: usize, symbol: &str) -> Option<&'static str> {
    match piece.kind(at) {
        Kind::Mark if symbol == "command" && piece.text(at) == "(" => {
            Some("; a script has no comments")
        }
        Kind::Number if piece.is_quote => absent("#number"),
        Kind::Mark | Kind::Odd if piece.is_quote => absent(piece.text(at)),
        _ => None,
    }
}

// Whether the word at a place in the list is the first of a line of a command, and could begin one.
fn begins_another(piece: &Piece<'_>, at: usize) -> bool {
    let end = piece.word(at.saturating_sub(1)).end;
    let mut blanks = between(piece.bytes, end, piece.start(at)).iter();
    blanks.any(|byte| *byte == b'\n') && is_command(piece.text(at))
}

// What is said of a word of a command that stands there for a mistake about commands.
fn slip(piece: &Piece<'_>, at: usize, symbol: &str) -> Option<&'static str> {
    if piece.is_quote {
        return None;
    }
    if symbol == "command" && is_ending(piece.text(at)) {
        return Some(ENDING);
    }
    if at == 1 && piece.text(1) == "(" {
        return line_of(CALLS, piece.text(0));
    }
    if begins_another(piece, at) {
        return Some("; a `;;` may be missing before it");
    }
    None
}

// Puts what is written in the place of a word at a symbol at the end, or the nearest of the words that may stand there.
fn push_other_word(
    alloc: Global,
    words: &[String],
    symbol: &str,
    word: &str,
    message: &mut Message,
) {
    let written = if is_choice(symbol) {
        written_for(word)
    } else {
        None
    };
    if let Some(written) = written {
        message.push_texts(&["; in its place is written ", written]);
    } else if let Some(near) = nearest(alloc, words, &[], word, message) {
        message.push_texts(&["; the nearest known word is `", near, "`"]);
    }
}

// Puts what is better at the end than the word at a place in the list, which stands at a symbol.
fn push_better(
    alloc: Global,
    words: &[String],
    piece: &Piece<'_>,
    at: usize,
    symbol: &str,
    message: &mut Message,
) {
    if let Some(said) = remark(piece, at, symbol) {
        message.push_str(said);
    } else if let Some(said) = slip(piece, at, symbol) {
        message.push_str(said);
    } else {
        push_other_word(alloc, words, symbol, piece.text(at), message);
    }
}

// Says what could stand at a place in the list, and what stands there.
fn missing(
    alloc: Global,
    known: &Known,
    piece: &Piece<'_>,
    at: usize,
    symbol: &str,
    message: &mut Message,
) {
    message.at = piece.start(at);
    message.push_texts(&["expected ", expected(symbol), ", found "]);
    push_found(piece, at, message);
    let mut words = Vec::new(alloc);
    let _pushed = message.made(push_words_at(alloc, known, symbol, &mut words));
    push_better(alloc, &words, piece, at, symbol, message);
    if is_choice(symbol) {
        message.push_str("; the words that could stand here are `");
        message.push_made(words.join(alloc, "`, `"));
        message.push_str("`");
    }
}

// Says where the quoted text at a place in the list stops being a term or a type, where it does.
fn in_quote(
    alloc: Global,
    known: &Known,
    piece: &Piece<'_>,
    at: usize,
    symbol: &'static str,
    message: &mut Message,
) {
    let Some(inside) = message.made(Piece::of_quote(alloc, piece.quoted(at))) else {
        return;
    };
    match message.made(read(alloc, &inside, 0, symbol)) {
        Some(
            Reading {
                at: stop,
                missing: Some(symbol),
            },
        ) => {
            missing(alloc, known, &inside, stop, symbol, message);
            message.enter_quote(piece.start(at));
        }
        _ => {}
    }
}

// Says where the first faulty quoted text among the first words, so many, stops being a term or a type.
fn in_quotes(alloc: Global, known: &Known, piece: &Piece<'_>, count: usize, message: &mut Message) {
    let is_type = piece.text(3) == "INST_TYPE";
    let symbol = if is_type {
        "quoted_type"
    } else {
        "quoted_term"
    };
    for at in 0..count {
        if piece.kind(at) == Kind::Quote && message.is_empty() {
            in_quote(alloc, known, piece, at, symbol, message);
            let is_second = is_type && piece.text(at.saturating_sub(1)) == ",";
            let is_variable = is_type_variable(piece.quoted(at).trim_ascii());
            if message.is_empty() && is_second && !is_variable {
                missing(alloc, known, piece, at, "type_variable", message);
            }
        }
    }
}

/// Says where a text that is refused as no command stops being one, what could stand there, and what does.
pub fn no_command(alloc: Global, known: &Known, piece: &Piece<'_>, message: &mut Message) {
    let Some(reading) = message.made(read(alloc, piece, 0, "command")) else {
        return;
    };
    in_quotes(
        alloc,
        known,
        piece,
        reading.at.min(piece.words.len()),
        message,
    );
    if !message.is_empty() {
        return;
    }
    match reading.missing {
        Some(symbol) => missing(alloc, known, piece, reading.at, symbol, message),
        None => {
            message.at = piece.start(0);
            message.push_str(OTHERWISE);
        }
    }
}

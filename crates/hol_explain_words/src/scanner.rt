// The words of a command, with their places. A quoted text is one word.
use crate::no_memory::NoMemory;
use std::alloc::Global;

/// What a word is.
#[derive(Clone, Copy, PartialEq, Eq)]
pub enum Kind {
    Name,
    Number,
    Mark,
    /// A text between two backquotes.
    Quote,
    /// A backquote without another behind it, and all that follows.
    Unclosed,
    /// A byte that begins no token.
    Odd,
    /// The end of the text.
    End,
}

impl Kind {
    /// The word of the grammar for any word of this kind.
    pub(crate) fn class(self) -> &'static str {
        match self {
            Kind::Name => "#name",
            Kind::Number => "#number",
            Kind::Mark => "#mark",
            Kind::Quote => "#quote",
            Kind::Unclosed => "#unclosed",
            Kind::Odd => "#odd",
            Kind::End => "#end",
        }
    }
}

/// A word, and where it begins and ends.
#[derive(Clone, Copy)]
pub struct Word {
    pub kind: Kind,
    pub start: usize,
    pub end: usize,
}

// The marks, each before those that it begins with.
const MARKS: &str = "<=> ==> -> /\\ \\/ |- = \\ ! ? @ ~ ( ) [ ] : . , ;";

fn is_in_name(byte: u8) -> bool {
    byte.is_ascii_alphanumeric() || byte == b'_' || byte == b'\''
}

// The length of the mark at the front, or nothing where none stands there.
fn mark_length(text: &[u8]) -> usize {
    for mark in MARKS.split(' ') {
        if text.starts_with(mark.as_bytes()) {
            return mark.len();
        }
    }
    0
}

// The length of the name or the number at the front.
fn name_length(text: &[u8], is_number: bool) -> usize {
    for at in 0..text.len() {
        let byte = text[at];
        if !is_in_name(byte) || (is_number && !byte.is_ascii_digit()) {
            return at;
        }
    }
    text.len()
}

// The quoted text at the front, whose first byte is a backquote.
fn quote(text: &[u8]) -> (Kind, usize) {
    for at in 1..text.len() {
        if text[at] == b'`' {
            return (Kind::Quote, at.saturating_add(1));
        }
    }
    (Kind::Unclosed, text.len())
}

// The kind and the length of the word at the front.
fn first_word(text: &[u8], first: u8) -> (Kind, usize) {
    if first.is_ascii_alphabetic() {
        return (Kind::Name, name_length(text, false));
    }
    if first.is_ascii_digit() {
        return (Kind::Number, name_length(text, true));
    }
    if first == b'`' {
        return quote(text);
    }
    match mark_length(text) {
        0 => (Kind::Odd, 1),
        length => (Kind::Mark, length),
    }
}

/// The words of a text.
pub fn words_of(alloc: Global, text: &[u8]) -> Result<Vec<Word>, NoMemory> {
    let mut words = Vec::new(alloc);
    let mut start = 0usize;
    for at in 0..text.len() {
        if at < start || matches!(text[at], b' ' | b'\t' | b'\n' | b'\r') {
            continue;
        }
        let (kind, length) = first_word(&text[at..], text[at]);
        start = at.saturating_add(length);
        words.push(Word {
            kind,
            start: at,
            end: start,
        })?;
    }
    Ok(words)
}

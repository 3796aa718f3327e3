// The text of a command with its words.
use crate::no_memory::NoMemory;
use crate::scanner::{Kind, Word, words_of};
use std::alloc::Global;

/// A text, its words, and what messages call it.
#[derive(Drop)]
pub struct Piece<'a> {
    pub bytes: &'a [u8],
    pub words: Vec<Word>,
    pub called: &'static str,
    pub is_quote: bool,
}

/// The bytes as text, where they are one.
pub fn text_of(bytes: &[u8]) -> &str {
    match str::from_utf8(bytes) {
        Ok(text) => text,
        Err(_) => "..",
    }
}

/// What stands between two places.
pub fn between(bytes: &[u8], start: usize, end: usize) -> &[u8] {
    match bytes.get(start..end) {
        Some(part) => part,
        None => b"",
    }
}

impl<'a> Piece<'a> {
    /// A command with its words.
    pub fn new(alloc: Global, bytes: &'a [u8]) -> Result<Piece<'a>, NoMemory> {
        Ok(Piece {
            bytes,
            words: words_of(alloc, bytes)?,
            called: "command",
            is_quote: false,
        })
    }

    /// A text that stood between backquotes, with its words.
    pub fn of_quote(alloc: Global, bytes: &'a [u8]) -> Result<Piece<'a>, NoMemory> {
        Ok(Piece {
            called: "quoted text",
            is_quote: true,
            ..Piece::new(alloc, bytes)?
        })
    }

    /// The word at a place in the list, or the end of the text.
    pub fn word(&self, at: usize) -> Word {
        match self.words.get(at) {
            Some(word) => *word,
            None => Word {
                kind: Kind::End,
                start: self.bytes.len(),
                end: self.bytes.len(),
            },
        }
    }

    /// The text of the word at a place in the list; nothing at the end.
    pub fn text(&self, at: usize) -> &str {
        let word = self.word(at);
        text_of(between(self.bytes, word.start, word.end))
    }

    /// The kind of the word at a place in the list.
    pub fn kind(&self, at: usize) -> Kind {
        self.word(at).kind
    }

    /// What stands inside the backquotes of the word at a place in the list.
    pub fn quoted(&self, at: usize) -> &[u8] {
        let word = self.word(at);
        between(
            self.bytes,
            word.start.saturating_add(1),
            word.end.saturating_sub(1),
        )
    }

    /// Where the word at a place in the list begins.
    pub fn start(&self, at: usize) -> usize {
        self.word(at).start
    }
}

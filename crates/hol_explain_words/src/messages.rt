// Messages, and the sentences that tell of names.
use crate::known::{nearest, place_lost};
use crate::no_memory::NoMemory;
use hol_model::Fault;
use std::alloc::Global;

/// What is said of a refused command, and how far behind its begin the part in question stands. Once memory is wanting for a part of
/// it, nothing more is put at the end, and its text is refused.
#[derive(Drop)]
pub struct Message {
    pub at: usize,
    text: String,
    is_cut: bool,
}

impl Message {
    /// A message that says nothing yet.
    pub fn new(alloc: Global) -> Message {
        Message {
            at: 0,
            text: String::new(alloc),
            is_cut: false,
        }
    }

    /// Whether nothing is said yet.
    pub fn is_empty(&self) -> bool {
        self.text.is_empty()
    }

    /// What is said, where memory was wanting for no part of it.
    pub fn text(&self) -> Result<&str, NoMemory> {
        if self.is_cut {
            Err(NoMemory)
        } else {
            Ok(self.text.as_str())
        }
    }

    /// The same, as a text of its own.
    pub fn finish(self) -> Result<String, NoMemory> {
        if self.is_cut {
            Err(NoMemory)
        } else {
            Ok(self.text)
        }
    }

    /// What was made, where there was memory for it.
    pub fn made<T: Drop, E: Drop>(&mut self, made: Result<T, E>) -> Option<T> {
        match made {
            Ok(value) => Some(value),
            Err(_) => {
                self.is_cut = true;
                None
            }
        }
    }

    /// What a call answers that tells by its fault that there was no memory, where it answers something.
    pub fn given<T: Drop>(&mut self, answer: Result<T, Fault>) -> Option<T> {
        match answer {
            Ok(value) => Some(value),
            Err(fault) => {
                self.is_cut = self.is_cut || fault == Fault::Memory;
                None
            }
        }
    }

    /// Puts a text at the end.
    pub fn push_str(&mut self, text: &str) {
        if !self.is_cut {
            self.is_cut = self.text.push_str(text).is_err();
        }
    }

    /// Puts texts at the end.
    pub fn push_texts(&mut self, texts: &[&str]) {
        for at in 0..texts.len() {
            self.push_str(texts[at]);
        }
    }

    /// Puts a text at the end that was made for it.
    pub fn push_made<E: Drop>(&mut self, made: Result<String, E>) {
        match self.made(made) {
            Some(text) => self.push_str(text.as_str()),
            None => {}
        }
    }

    /// Puts what another message says at the end.
    pub fn push_message(&mut self, message: &Message) {
        self.push_str(message.text.as_str());
        self.is_cut = self.is_cut || message.is_cut;
    }

    /// The message is on a part of a quoted text whose first backquote stands at an offset.
    pub fn enter_quote(&mut self, start: usize) {
        self.at = start.saturating_add(1).saturating_add(self.at);
    }

    /// Says of a name at an offset that it is unknown, and the refused command that would have made it, or the nearest name that is
    /// known.
    pub fn say_unknown(&mut self, alloc: Global, at: usize, unknown: &Unknown<'_>) {
        self.at = at;
        self.push_texts(&[unknown.said, " `", unknown.name, "`"]);
        match place_lost(unknown.lost, unknown.name) {
            Some(place) => {
                self.push_texts(&[": ", place, ", which would have made it, was refused"]);
            }
            None => self.push_nearest(alloc, unknown),
        }
    }

    // Puts the name at the end that is nearest to an unknown one.
    fn push_nearest(&mut self, alloc: Global, unknown: &Unknown<'_>) {
        match nearest(alloc, unknown.first, unknown.second, unknown.name, self) {
            Some(known) => self.push_texts(&["; the nearest known name is `", known, "`"]),
            None => self.push_str(unknown.otherwise),
        }
    }
}

/// What is unknown, and which names of its kind are known.
#[derive(Clone, Copy)]
pub struct Unknown<'a> {
    /// What is said before the name.
    pub said: &'a str,
    pub name: &'a str,
    pub first: &'a [String],
    pub second: &'a [String],
    /// The names that refused commands would have made.
    pub lost: &'a [String],
    /// What is said where no known name is near.
    pub otherwise: &'a str,
}

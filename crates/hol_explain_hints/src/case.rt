// A refused command.
use crate::arguments::Arguments;
use crate::said::{Said, Teller};
use hol_explain_words::{Message, Piece};
use hol_model::Fault;

/// A refused command, and who tells of it.
#[derive(Clone, Copy)]
pub struct Case<'a> {
    pub teller: Teller<'a>,
    pub host_names: &'a [String],
    pub piece: &'a Piece<'a>,
    pub arguments: &'a Arguments,
    pub fault: &'a Fault,
    /// The row of values that makes a formula false.
    pub row: Option<&'a str>,
}

impl<'a> Case<'a> {
    /// Says a text on the word at a place in the list, with parts in its holes.
    pub(crate) fn say(&self, message: &mut Message, at: usize, text: &str, parts: &[Said<'_>]) {
        self.teller.say(message, self.piece.start(at), text, parts);
    }

    /// The word of the rule of a `thm`.
    pub(crate) fn rule(&self) -> &'a str {
        self.piece.text(3)
    }
}

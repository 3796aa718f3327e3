// Messages with parts in the holes of a text.
use crate::arguments::Premise;
use crate::parts::dest_quantified;
use hol_explain_words::{Known, Message, Piece, between, text_of, type_in};
use hol_model::Fault;
use hol_syntax::read_type;
use hol_syntax_print::{text_of_term, text_of_type};
use hol_terms::Term;
use hol_types::Ty;
use std::alloc::Global;

/// A part of a message.
#[derive(Clone, Copy)]
pub(crate) enum Said<'a> {
    /// A text as it is.
    Text(&'a str),
    /// A text between backquotes, cut where it is long.
    Quoted(&'a str),
    /// A term as it is.
    Bare(&'a Term),
    /// A term between backquotes.
    Shown(&'a Term),
    /// A type between backquotes.
    Type(&'a Ty),
    /// A term, and its type.
    Typed(&'a Term),
    /// The name of a theorem, and its text.
    Theorem(&'a Premise),
}

// What stands before the first hole of a text, which is `{}`, and what stands behind it.
fn around_hole(text: &str) -> (&str, &str) {
    match text.split_once("{}") {
        Some(parts) => parts,
        None => (text, ""),
    }
}

// The longest text that is shown of a term or a type.
const SHOWN: usize = 400;

fn push_quoted(message: &mut Message, text: &str) {
    let (shown, end) = if text.len() <= SHOWN {
        (text, "`")
    } else {
        (text_of(between(text.as_bytes(), 0, SHOWN)), " ..`")
    };
    message.push_texts(&["`", shown, end]);
}

// Puts the text of a term or a type at the end, where it has one.
fn push_shown(message: &mut Message, text: Result<String, Fault>) {
    if let Some(text) = message.given(text) {
        push_quoted(message, text.as_str());
    }
}

/// Who tells: what names stand for, the line of the first open goal, and where texts are made.
#[derive(Clone, Copy)]
pub struct Teller<'a> {
    pub alloc: Global,
    pub known: &'a Known,
    pub goal: &'a Piece<'a>,
}

impl Teller<'_> {
    fn text_of(&self, term: &Term) -> Result<String, Fault> {
        text_of_term(self.alloc, &self.known.scope, term)
    }

    // Puts the goal's variable of the same name at the end, where that has another type.
    fn push_other(&self, message: &mut Message, term: &Term) {
        let Some((name, ty)) = term.dest_var() else {
            return;
        };
        let Some(text) = type_in(self.goal, name) else {
            return;
        };
        let read = read_type(self.alloc, &self.known.scope, text.as_bytes());
        if let Some(found) = message.given(read) {
            if !found.eq(ty) {
                message.push_texts(&[" (the goal has `(", name, ":", text, ")`)"]);
            }
        }
    }

    fn push_part(&self, message: &mut Message, part: Said<'_>) {
        match part {
            Said::Text(text) => message.push_str(text),
            Said::Quoted(text) => push_quoted(message, text),
            Said::Bare(term) => {
                if let Some(text) = message.given(self.text_of(term)) {
                    message.push_str(text.as_str());
                }
            }
            Said::Shown(term) => push_shown(message, self.text_of(term)),
            Said::Type(ty) => push_shown(message, text_of_type(self.alloc, ty)),
            Said::Typed(term) => {
                push_shown(message, self.text_of(term));
                message.push_str(" has the type ");
                push_shown(message, text_of_type(self.alloc, term.ty()));
                self.push_other(message, term);
            }
            Said::Theorem(theorem) => {
                push_quoted(message, theorem.name());
                message.push_str(" is ");
                push_quoted(message, theorem.text());
            }
        }
    }

    /// Puts a text at the end, with parts in its holes.
    pub(crate) fn push(&self, message: &mut Message, text: &str, parts: &[Said<'_>]) {
        let mut rest = text;
        for at in 0..parts.len() {
            let (before, behind) = around_hole(rest);
            message.push_str(before);
            self.push_part(message, parts[at]);
            rest = behind;
        }
        message.push_str(rest);
    }

    /// Says a text on what stands at an offset, with parts in its holes.
    pub(crate) fn say(&self, message: &mut Message, at: usize, text: &str, parts: &[Said<'_>]) {
        message.at = at;
        self.push(message, text, parts);
    }

    /// Puts the types at the end of the variable that a formula binds, and of a term that is to stand for it.
    pub(crate) fn push_misfit<'b>(&self, message: &mut Message, formula: &'b Term, term: &'b Term) {
        let Some((variable, _)) = dest_quantified(formula) else {
            return;
        };
        let Some((name, ty)) = variable.dest_var() else {
            return;
        };
        let parts = [
            Said::Quoted(name),
            Said::Shown(formula),
            Said::Type(ty),
            Said::Typed(term),
        ];
        self.push(
            message,
            ": the bound variable {} of {} has the type {}, and {}",
            &parts,
        );
    }
}

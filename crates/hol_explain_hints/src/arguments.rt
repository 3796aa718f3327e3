// The terms that a command quotes, and the stored theorems that it names.
use crate::names::is_theorem_place;
use hol_explain_words::{Kind, Known, Message, Piece, Span, between, text_of};
use hol_syntax::{read_sequent, read_term};
use hol_terms::Term;
use std::alloc::Global;

/// A term that a command quotes, and the place of its word in the list.
#[derive(Drop)]
pub(crate) struct Quotation {
    pub(crate) at: usize,
    pub(crate) term: Term,
}

/// A stored theorem that a command names, and the place of the name in the list.
#[derive(Drop)]
pub struct Premise {
    pub(crate) at: usize,
    // How long its name is.
    length: usize,
    // The line that shows it: its name, a colon, a blank, its text and a line feed.
    line: String,
    pub(crate) hypotheses: Vec<Term>,
    pub(crate) conclusion: Term,
}

// The sequent in the line that shows a theorem whose name has a length.
fn sequent(line: &str, length: usize) -> &[u8] {
    let end = line.len().saturating_sub(1);
    between(line.as_bytes(), length.saturating_add(2), end)
}

impl Premise {
    /// The theorem that a line shows, whose name stands at a place in the list and has a length.
    pub fn read(
        alloc: Global,
        known: &Known,
        line: String,
        at: usize,
        length: usize,
        message: &mut Message,
    ) -> Option<Premise> {
        let read = read_sequent(alloc, &known.scope, sequent(line.as_str(), length));
        match message.given(read) {
            Some((hypotheses, conclusion)) => Some(Premise {
                at,
                length,
                line,
                hypotheses,
                conclusion,
            }),
            None => None,
        }
    }

    pub(crate) fn name(&self) -> &str {
        text_of(between(self.line.as_bytes(), 0, self.length))
    }

    pub(crate) fn text(&self) -> &str {
        text_of(sequent(self.line.as_str(), self.length))
    }
}

/// Whether the name at a place in the list is looked up: any in a `thm`, and else those of theorems.
pub fn is_looked_up(piece: &Piece<'_>, at: usize) -> bool {
    piece.kind(at) == Kind::Name && (piece.text(0) == "thm" || is_theorem_place(piece, at))
}

/// Where the arguments of a command stand: those of a `thm` behind its rule, and those of an `e` are read with the part that is
/// refused.
pub fn span_of(piece: &Piece<'_>) -> Span {
    let to = piece.words.len();
    match piece.text(0) {
        "thm" => Span { from: 4, to },
        "e" => Span { from: to, to },
        _ => Span { from: 1, to },
    }
}

/// Arguments of a command in the order of its words: of those that quote no term or name no theorem, nothing.
#[derive(Drop)]
pub struct Arguments {
    pub(crate) terms: Vec<Option<Quotation>>,
    pub theorems: Vec<Option<Premise>>,
}

impl Arguments {
    /// The terms that a part of a command quotes, and no theorem yet.
    pub fn new(
        alloc: Global,
        known: &Known,
        piece: &Piece<'_>,
        span: Span,
        message: &mut Message,
    ) -> Arguments {
        let mut terms = Vec::new(alloc);
        for at in span.from..span.to {
            if piece.kind(at) == Kind::Quote {
                let read = read_term(alloc, &known.scope, piece.quoted(at));
                let quoted = match message.given(read) {
                    Some(term) => Some(Quotation { at, term }),
                    None => None,
                };
                let _pushed = message.made(terms.push(quoted));
            }
        }
        Arguments {
            terms,
            theorems: Vec::new(alloc),
        }
    }

    /// The argument of this number among those between backquotes, where it is a term.
    pub(crate) fn term(&self, number: usize) -> Option<&Quotation> {
        self.terms.get(number)?.as_ref()
    }

    /// The argument of this number among the names, where it names a theorem.
    pub(crate) fn theorem(&self, number: usize) -> Option<&Premise> {
        self.theorems.get(number)?.as_ref()
    }

    /// The term that the word at a place in the list quotes.
    pub(crate) fn term_at(&self, at: usize) -> Option<&Quotation> {
        self.terms
            .iter()
            .flatten()
            .find(|quotation| quotation.at == at)
    }

    /// The theorem that the word at a place in the list names.
    pub(crate) fn theorem_at(&self, at: usize) -> Option<&Premise> {
        self.theorems
            .iter()
            .flatten()
            .find(|premise| premise.at == at)
    }
}

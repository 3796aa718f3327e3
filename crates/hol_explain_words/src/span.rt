// Parts of an expression.
use crate::piece::Piece;

/// A part of an expression: its first word, and the word behind its last.
#[derive(Clone, Copy)]
pub struct Span {
    pub from: usize,
    pub to: usize,
}

/// The place in the list of the first of two words outside of all brackets, or the end of the part.
pub fn next_outside(piece: &Piece<'_>, span: Span, words: (&str, &str)) -> usize {
    let mut depth = 0usize;
    for at in span.from..span.to {
        let word = piece.text(at);
        if depth == 0 && (word == words.0 || word == words.1) {
            return at;
        }
        match word {
            "(" | "[" => depth = depth.saturating_add(1),
            ")" | "]" => depth = depth.saturating_sub(1),
            _ => {}
        }
    }
    span.to
}

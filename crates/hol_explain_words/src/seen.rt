// Variables that a goal shows with their types.
use crate::piece::{Piece, between, text_of};

/// How many parentheses are open in a type behind a word, with one for the colon before it; none outside of types.
pub fn type_depth(before: usize, word: &str) -> usize {
    match word {
        ":" if before == 0 => 1,
        "(" if before > 0 => before.saturating_add(1),
        ")" if before > 1 => before.saturating_sub(1),
        ")" | "]" | "." => 0,
        _ => before,
    }
}

// The place in the list of the word behind the type that begins at another.
fn end_of_type(goal: &Piece<'_>, from: usize) -> usize {
    let mut depth = 1usize;
    for at in from..goal.words.len() {
        depth = type_depth(depth, goal.text(at));
        if depth == 0 {
            return at;
        }
    }
    goal.words.len()
}

/// The type that a goal shows first of a variable of a name.
pub fn type_in<'a>(goal: &'a Piece<'a>, name: &str) -> Option<&'a str> {
    for at in 0..goal.words.len() {
        if goal.text(at) == name && goal.text(at.saturating_add(1)) == ":" {
            let from = at.saturating_add(2);
            let end = goal.start(end_of_type(goal, from));
            return Some(text_of(between(goal.bytes, goal.start(from), end)));
        }
    }
    None
}

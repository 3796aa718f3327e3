// A formula's text, broken into lines.

use std::alloc::{AllocError, Global};

// How many columns a line has.
const COLUMNS: usize = 80;

// How deep the parts are that are laid out, and how long; others stand in one line.
const DEPTH: u32 = 1000;

const LENGTH: usize = 1 << 16;

// The infixes, from the loosest.
const INFIXES: [&str; 5] = [" <=> ", " ==> ", " \\/ ", " /\\ ", " = "];

// How a formula is made.
#[derive(Clone, Copy)]
enum Shape<'a> {
    // `!x:A.`, and what stands behind it.
    Binder(&'a [u8], &'a [u8]),
    // The left side, the infix, the right side.
    Infix(&'a [u8], &'a str, &'a [u8]),
    // What stands in parentheses.
    Bracketed(&'a [u8]),
    Negated(&'a [u8]),
    // All but the last argument, and the last argument.
    Applied(&'a [u8], &'a [u8]),
    Word,
}

// How many brackets are open behind a byte.
fn open_behind(open: usize, byte: u8) -> usize {
    match byte {
        b'(' | b'[' => open.saturating_add(1),
        b')' | b']' => open.saturating_sub(1),
        _ => open,
    }
}

// The first place of a text outside of brackets.
fn first_outside(text: &[u8], part: &[u8]) -> Option<usize> {
    let mut open = 0usize;
    for at in 0..text.len() {
        if open == 0 && text[at..].starts_with(part) {
            return Some(at);
        }
        open = open_behind(open, text[at]);
    }
    None
}

// The last place of a space outside of brackets.
fn last_space(text: &[u8]) -> Option<usize> {
    let mut open = 0usize;
    let mut last = None;
    for at in 0..text.len() {
        if open == 0 && text[at] == b' ' {
            last = Some(at);
        }
        open = open_behind(open, text[at]);
    }
    last
}

// Both sides of what stands at a place.
fn around(text: &[u8], at: usize, length: usize) -> Option<(&[u8], &[u8])> {
    let left = text.get(..at)?;
    let right = text.get(at.checked_add(length)?..)?;
    Some((left, right))
}

// A binder with what stands behind it, where the text begins with one.
fn binder(text: &[u8]) -> Option<(&[u8], &[u8])> {
    match text.first() {
        Some(b'!' | b'?' | b'\\' | b'@') => {}
        _ => return None,
    }
    let dot = first_outside(text, b". ")?;
    let head = text.get(..dot.checked_add(1)?)?;
    let body = text.get(dot.checked_add(2)?..)?;
    Some((head, body))
}

// The loosest infix outside of brackets, between its sides.
fn infix(text: &[u8]) -> Option<(&[u8], &'static str, &[u8])> {
    for infix in INFIXES {
        if let Some(at) = first_outside(text, infix.as_bytes()) {
            let (left, right) = around(text, at, infix.len())?;
            return Some((left, infix, right));
        }
    }
    None
}

// What stands in parentheses, where one pair is around all of it.
fn bracketed(text: &[u8]) -> Option<&[u8]> {
    let inner = text.strip_prefix(b"(")?.strip_suffix(b")")?;
    let mut open = 0usize;
    for byte in inner {
        if open == 0 && *byte == b')' {
            return None;
        }
        open = open_behind(open, *byte);
    }
    Some(inner)
}

fn shape_of(text: &[u8]) -> Shape<'_> {
    if let Some((head, body)) = binder(text) {
        return Shape::Binder(head, body);
    }
    if let Some((left, infix, right)) = infix(text) {
        return Shape::Infix(left, infix, right);
    }
    if let Some(inner) = bracketed(text) {
        return Shape::Bracketed(inner);
    }
    if let Some(rest) = text.strip_prefix(b"~") {
        return Shape::Negated(rest);
    }
    match last_space(text) {
        Some(at) => match around(text, at, 1) {
            Some((function, argument)) => Shape::Applied(function, argument),
            None => Shape::Word,
        },
        None => Shape::Word,
    }
}

/// A text whose lines are begun at some column.
#[derive(Drop)]
pub(crate) struct Page<'a> {
    out: &'a mut Vec<u8>,
    column: usize,
}

impl Page<'_> {
    // Puts a text at the end of the line.
    fn put(&mut self, text: &[u8]) -> Result<(), AllocError> {
        self.column = self.column.saturating_add(text.len());
        self.out.extend_from_slice(text)
    }

    // Begins a line at a column.
    fn begin_line(&mut self, column: usize) -> Result<(), AllocError> {
        self.out.push(b'\n')?;
        for _ in 0..column {
            self.out.push(b' ')?;
        }
        self.column = column;
        Ok(())
    }

    // Puts a formula at the end of the line. Its further lines begin at a column, and so much stands behind it.
    fn lay_out(
        &mut self,
        formula: &[u8],
        column: usize,
        behind: usize,
        depth: u32,
    ) -> Result<(), AllocError> {
        let end = self
            .column
            .saturating_add(formula.len())
            .saturating_add(behind);
        if depth == 0 || end <= COLUMNS || formula.len() > LENGTH {
            return self.put(formula);
        }
        let depth = depth - 1;
        match shape_of(formula) {
            Shape::Binder(head, body) => {
                self.put(head)?;
                if binder(body).is_some() {
                    self.put(b" ")?;
                } else {
                    self.begin_line(column.saturating_add(2))?;
                }
                self.lay_out(body, column.saturating_add(2), behind, depth)
            }
            Shape::Infix(left, infix, right) => {
                let infix = infix.as_bytes().trim_ascii_end();
                self.lay_out(left, column, infix.len(), depth)?;
                self.put(infix)?;
                self.begin_line(column)?;
                self.lay_out(right, column, behind, depth)
            }
            Shape::Bracketed(inner) => {
                self.put(b"(")?;
                let inside = self.column;
                self.lay_out(inner, inside, behind.saturating_add(1), depth)?;
                self.put(b")")
            }
            Shape::Negated(rest) => {
                self.put(b"~")?;
                self.lay_out(rest, column.saturating_add(1), behind, depth)
            }
            Shape::Applied(function, argument) => {
                self.lay_out(function, column, 0, depth)?;
                self.begin_line(column.saturating_add(2))?;
                self.lay_out(argument, column.saturating_add(2), behind, depth)
            }
            Shape::Word => self.put(formula),
        }
    }
}

/// Puts a formula in quotes at the end of a text, behind what begins its line and before what ends it.
pub(crate) fn push_formula(
    out: &mut Vec<u8>,
    before: &[u8],
    formula: &[u8],
    behind: &[u8],
) -> Result<(), AllocError> {
    let mut page = Page { out, column: 0 };
    page.put(before)?;
    page.put(b"`")?;
    let column = page.column;
    page.lay_out(formula, column, behind.len().saturating_add(1), DEPTH)?;
    page.put(b"`")?;
    page.put(behind)?;
    page.put(b"\n")
}

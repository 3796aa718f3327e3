// What is shown of an output.

use crate::declared::Declared;
use crate::layout::push_formula;
use itoa::Buffer;
use std::alloc::{AllocError, Global};
use std::mem::replace;

// What stands between assumptions and conclusion.
const RULE: &[u8] = b"----------------------------------------\n";

/// Reads an output of a run, and shows it: goals in their own form, all else as it is.
#[derive(Drop)]
pub struct View {
    declared: Declared,
    // The front of the line that has begun.
    line: Vec<u8>,
    // How many of the next lines are goals, and those that were read before these.
    goals: usize,
    open: Vec<Vec<u8>>,
    // Whether the command that was answered last was refused.
    is_refused: bool,
}

// How many goals stand behind this line.
fn goals_behind(line: &[u8]) -> usize {
    let Ok(line) = str::from_utf8(line) else {
        return 0;
    };
    if line == "1 subgoal" {
        return 1;
    }
    match line.strip_suffix(" subgoals") {
        Some(count) => match count.parse::<usize>() {
            Ok(count) => count,
            Err(_) => 0,
        },
        None => 0,
    }
}

// Whether a line that is no goal tells of a refused command, `line N: En Name`: a name of a theorem has no space.
fn is_refusal(line: &[u8]) -> bool {
    line.starts_with(b"line ")
}

// Whether a byte may stand in a name.
fn is_of_name(byte: u8) -> bool {
    byte.is_ascii_alphanumeric() || byte == b'_' || byte == b'\''
}

// Whether a binder of this name stands in a text.
fn binds(text: &[u8], name: &[u8]) -> bool {
    for at in 0..text.len() {
        if let b'!' | b'?' | b'\\' | b'@' = text[at] {
            if let Some(rest) = text[at + 1..].strip_prefix(name) {
                if rest.first() == Some(&b':') {
                    return true;
                }
            }
        }
    }
    false
}

// How many bytes of a text there are up to the parenthesis that closes it.
fn length_to_close(text: &[u8]) -> usize {
    let mut open = 0usize;
    for at in 0..text.len() {
        match text[at] {
            b'(' => open = open.saturating_add(1),
            b')' => {
                if open == 0 {
                    return at;
                }
                open -= 1;
            }
            _ => {}
        }
    }
    text.len()
}

// Of a text behind a parenthesis, the name and the type of the variable that stands there.
fn variable_in(text: &[u8]) -> Option<(&[u8], &[u8])> {
    let mut length = 0usize;
    for byte in text {
        if !is_of_name(*byte) {
            break;
        }
        length = length.saturating_add(1);
    }
    let name = text.get(..length)?;
    let rest = text.get(length..)?.strip_prefix(b":")?;
    let ty = rest.get(..length_to_close(rest))?;
    if name.is_empty() {
        return None;
    }
    Some((name, ty))
}

// What stands behind a text at the front of a line.
fn behind<'a>(line: &'a [u8], text: &str) -> Option<(&'a [u8], &'a [u8])> {
    let text = text.as_bytes();
    for at in 0..line.len() {
        if line[at..].starts_with(text) {
            let rest = line.get(at.checked_add(text.len())?..)?;
            return Some((&line[..at], rest));
        }
    }
    None
}

impl View {
    /// The view of the output of this script.
    pub fn new(alloc: Global, script: &[u8]) -> Result<View, AllocError> {
        Ok(View {
            declared: Declared::of(alloc, script)?,
            line: Vec::new(alloc),
            goals: 0,
            open: Vec::new(alloc),
            is_refused: false,
        })
    }

    /// Takes up what a further command of the script declares, whose whole answer was read just now.
    pub fn learn(&mut self, alloc: Global, command: &[u8]) -> Result<(), AllocError> {
        if replace(&mut self.is_refused, false) {
            return Ok(());
        }
        self.declared.read(alloc, command, true)
    }

    // Puts a formula at the end, without the types of variables that are declared with them.
    fn push_untyped(
        &self,
        line: &[u8],
        formula: &[u8],
        out: &mut Vec<u8>,
    ) -> Result<(), AllocError> {
        let mut at = 0usize;
        for _ in 0..formula.len() {
            let Some(rest) = formula.get(at..) else {
                break;
            };
            let Some(byte) = rest.first() else {
                break;
            };
            let known = match variable_in(rest.get(1..).unwrap_or(b"")) {
                Some((name, ty)) => {
                    if *byte == b'(' && self.declared.has(name, ty) && !binds(line, name) {
                        Some((name, ty))
                    } else {
                        None
                    }
                }
                None => None,
            };
            match known {
                Some((name, ty)) => {
                    out.extend_from_slice(name)?;
                    let length = name.len().saturating_add(ty.len()).saturating_add(3);
                    at = at.saturating_add(length);
                }
                None => {
                    out.push(*byte)?;
                    at = at.saturating_add(1);
                }
            }
        }
        Ok(())
    }

    // Puts a formula of a goal's line at the end of a text, behind what begins its line and before what ends it.
    fn push_laid_out(
        &self,
        alloc: Global,
        line: &[u8],
        before: &[u8],
        formula: &[u8],
        behind: &[u8],
        out: &mut Vec<u8>,
    ) -> Result<(), AllocError> {
        let mut untyped = Vec::new(alloc);
        self.push_untyped(line, formula, &mut untyped)?;
        push_formula(out, before, &untyped, behind)
    }

    // Puts an assumption with its number at the end of a text.
    fn push_assumption(
        &self,
        alloc: Global,
        line: &[u8],
        number: usize,
        assumption: &[u8],
        out: &mut Vec<u8>,
    ) -> Result<(), AllocError> {
        let mut digits = Buffer::new();
        let digits = digits.format(number);
        let mut before = Vec::new(alloc);
        for _ in digits.len()..3 {
            before.push(b' ')?;
        }
        before.extend_from_slice(digits.as_bytes())?;
        before.extend_from_slice(b" [")?;
        self.push_laid_out(alloc, line, &before, assumption, b"]", out)
    }

    // Puts a goal at the end of a text.
    fn push_goal(&self, alloc: Global, line: &[u8], out: &mut Vec<u8>) -> Result<(), AllocError> {
        let Some((assumptions, conclusion)) = behind(line, "?- ") else {
            return out.extend_from_slice(line);
        };
        let mut rest = assumptions.trim_ascii_end();
        for number in 0..assumptions.len() {
            if rest.is_empty() {
                break;
            }
            let (assumption, others) = match behind(rest, ", ") {
                Some(parts) => parts,
                None => (rest, &rest[..0]),
            };
            self.push_assumption(alloc, line, number, assumption, out)?;
            rest = others;
        }
        if !assumptions.is_empty() {
            out.extend_from_slice(RULE)?;
        }
        self.push_laid_out(alloc, line, b"", conclusion, b"", out)?;
        out.push(b'\n')?;
        Ok(())
    }

    // Puts open goals at the end of a text, the first of them last, each behind its number where there are several.
    fn push_goals(
        &self,
        alloc: Global,
        goals: &[Vec<u8>],
        out: &mut Vec<u8>,
    ) -> Result<(), AllocError> {
        for before in 0..goals.len() {
            let number = goals.len() - before;
            if goals.len() > 1 {
                let mut digits = Buffer::new();
                out.extend_from_slice(b"subgoal ")?;
                out.extend_from_slice(digits.format(number).as_bytes())?;
                out.extend_from_slice(b":\n")?;
            }
            self.push_goal(alloc, &goals[number - 1], out)?;
        }
        Ok(())
    }

    // Puts what is shown of a line at the end of a text: of open goals, once the last of them is read.
    fn push_line(
        &mut self,
        alloc: Global,
        line: Vec<u8>,
        out: &mut Vec<u8>,
    ) -> Result<(), AllocError> {
        if self.goals > 0 {
            self.goals -= 1;
            self.open.push(line)?;
            if self.goals > 0 {
                return Ok(());
            }
            let open = replace(&mut self.open, Vec::new(alloc));
            return self.push_goals(alloc, &open, out);
        }
        self.goals = goals_behind(&line);
        self.is_refused = is_refusal(&line);
        out.extend_from_slice(&line)?;
        out.push(b'\n')?;
        Ok(())
    }

    /// Reads what stands next in the output, and puts what is shown of it, line by line, at the end of a text.
    pub fn show(
        &mut self,
        alloc: Global,
        bytes: &[u8],
        out: &mut Vec<u8>,
    ) -> Result<(), AllocError> {
        for byte in bytes {
            if *byte == b'\n' {
                let line = replace(&mut self.line, Vec::new(alloc));
                self.push_line(alloc, line, out)?;
            } else {
                self.line.push(*byte)?;
            }
        }
        Ok(())
    }
}

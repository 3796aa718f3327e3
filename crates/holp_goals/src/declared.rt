// The types that a script declares variables with.

use hol_script_commands::cut::cut;
use indexmap::IndexMap;
use std::alloc::{AllocError, Global};

/// For each name that `var` declares, the type without which a variable is shown. A constant's name has no type, nor has one that
/// several commands of a whole script declare with several types.
#[derive(Drop)]
pub(crate) struct Declared {
    types: IndexMap<Vec<u8>, Vec<u8>>,
}

// A text without white space.
fn without_spaces(alloc: Global, text: &[u8]) -> Result<Vec<u8>, AllocError> {
    let mut out = Vec::new(alloc);
    for byte in text {
        if !byte.is_ascii_whitespace() {
            out.push(*byte)?;
        }
    }
    Ok(out)
}

// What stands before a byte, and behind it.
fn split_at_byte(text: &[u8], byte: u8) -> Option<(&[u8], &[u8])> {
    for at in 0..text.len() {
        if text[at] == byte {
            return Some((&text[..at], &text[at + 1..]));
        }
    }
    None
}

// What stands behind a word at the front of a command.
fn behind_word<'a>(command: &'a [u8], word: &str) -> Option<&'a [u8]> {
    let rest = command.trim_ascii_start().strip_prefix(word.as_bytes())?;
    match rest.first() {
        Some(byte) => {
            if byte.is_ascii_whitespace() {
                Some(rest)
            } else {
                None
            }
        }
        None => None,
    }
}

impl Declared {
    /// What the commands of a script declare, none of which is answered yet.
    pub(crate) fn of(alloc: Global, script: &[u8]) -> Result<Declared, AllocError> {
        let mut declared = Declared {
            types: IndexMap::new(alloc),
        };
        let mut rest = script;
        for _ in 0..script.len() {
            let Some((command, behind)) = cut(rest) else {
                break;
            };
            declared.read(alloc, command, false)?;
            rest = behind;
        }
        Ok(declared)
    }

    /// Takes up what a command declares. Where it `replaces`, it is an accepted one, and its type takes the place of the one before.
    pub(crate) fn read(
        &mut self,
        alloc: Global,
        command: &[u8],
        replaces: bool,
    ) -> Result<(), AllocError> {
        if let Some(rest) = behind_word(command, "var") {
            return self.declare_variable(alloc, rest, replaces);
        }
        if let Some(rest) = behind_word(command, "newconst") {
            return self.declare_constant(alloc, rest, b':');
        }
        if let Some(rest) = behind_word(command, "def") {
            return self.declare_constant(alloc, rest, b'=');
        }
        Ok(())
    }

    // Declares a variable. A name that is a constant's, or whose other type is not replaced, is left without a type.
    fn declare_variable(
        &mut self,
        alloc: Global,
        text: &[u8],
        replaces: bool,
    ) -> Result<(), AllocError> {
        let Some((name, ty)) = split_at_byte(text, b':') else {
            return Ok(());
        };
        let name = without_spaces(alloc, name)?;
        let mut ty = without_spaces(alloc, ty)?;
        let stays = match self.types.get(name.as_slice()) {
            Some(known) => known.is_empty() || (!replaces && known.as_slice() != ty.as_slice()),
            None => false,
        };
        if stays {
            ty.clear();
        }
        self.types.insert(name, ty)?;
        Ok(())
    }

    // Leaves the name before a byte without a type.
    fn declare_constant(&mut self, alloc: Global, text: &[u8], byte: u8) -> Result<(), AllocError> {
        if let Some((name, _)) = split_at_byte(text, byte) {
            let name = without_spaces(alloc, name)?;
            self.types.insert(name, Vec::new(alloc))?;
        }
        Ok(())
    }

    /// Whether a variable is declared with this type.
    pub(crate) fn has(&self, name: &[u8], ty: &[u8]) -> bool {
        match self.types.get(name) {
            Some(known) => known.as_slice() == ty,
            None => false,
        }
    }
}

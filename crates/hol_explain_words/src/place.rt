// Places in a script, the files that a script was put together from, and where its commands stand.
use crate::messages::Message;
use crate::no_memory::NoMemory;
use crate::piece::{Piece, between};
use serde::Serialize;
use std::alloc::Global;

/// A line and a column, each counted from 1; a column counts bytes.
#[derive(Clone, Copy, Drop, Serialize)]
pub struct Place {
    pub line: usize,
    pub column: usize,
}

impl Place {
    /// Where a script begins.
    pub fn start() -> Place {
        Place { line: 1, column: 1 }
    }

    /// The place behind a text that begins here.
    pub fn behind(&self, text: &[u8]) -> Place {
        let feeds = text.iter().filter(|byte| **byte == b'\n').count();
        let last = text.iter().rev().take_while(|byte| **byte != b'\n').count();
        let before = if feeds == 0 { self.column } else { 1 };
        Place {
            line: self.line.saturating_add(feeds),
            column: before.saturating_add(last),
        }
    }
}

/// Where lines of a script come from: the name of a file, and how many lines of the script stand before the file's own.
#[derive(Clone, Copy)]
pub struct Origin<'a> {
    pub file: &'a str,
    pub lines_before: usize,
}

/// The file that a line of a script comes from, and the line's number there. Lines count from 1.
pub fn origin_of<'a>(origins: &[Origin<'a>], line: usize) -> (&'a str, usize) {
    let mut file = "";
    let mut before = 0usize;
    for at in 0..origins.len() {
        let origin = &origins[at];
        if origin.lines_before < line {
            file = origin.file;
            before = origin.lines_before;
        }
    }
    (file, line.saturating_sub(before))
}

/// A command, the files of its script, the place behind the command before it, and the mark that ends it.
#[derive(Clone, Copy)]
pub struct Told<'a> {
    pub origins: &'a [Origin<'a>],
    pub piece: &'a Piece<'a>,
    pub place: Place,
    pub mark: &'a [u8],
}

impl<'a> Told<'a> {
    /// A command that stands behind a place of a script, with the mark behind it.
    pub fn new(
        origins: &'a [Origin<'a>],
        piece: &'a Piece<'a>,
        place: Place,
        mark: &'a [u8],
    ) -> Told<'a> {
        Told {
            origins,
            piece,
            place,
            mark,
        }
    }

    /// The place in its script of what stands at an offset.
    pub(crate) fn place_at(&self, at: usize) -> Place {
        self.place.behind(between(self.piece.bytes, 0, at))
    }

    /// The file that what stands at an offset comes from, and the place there.
    pub fn located(&self, at: usize) -> (&'a str, Place) {
        let place = self.place_at(at);
        let (file, line) = origin_of(self.origins, place.line);
        let column = place.column;
        (file, Place { line, column })
    }

    /// The line that it begins in, and the file, where there are several.
    pub fn line(&self, alloc: Global) -> Result<String, NoMemory> {
        let (file, here) = self.located(self.piece.start(0));
        let line = here.line;
        let mut text = Message::new(alloc);
        text.push_made(format!(in alloc; "line {line}"));
        if self.origins.len() > 1 {
            text.push_texts(&[" of `", file, "`"]);
        }
        text.finish()
    }
}

// A script is run once more, and each refusal is explained and what is suspicious noted, or each command told.
ghost use Rattle.std.specs.Prelude.{◌≡◌, ◌∷◌, [], false, IfErr, Contains, OnOk};
ghost use Rattle.hol_model.specs.declared.fault.Fault.TheVariants.{Memory, WriteFault};
ghost use Rattle.hol_script.specs.Managers.{IsManager};

use crate::rerun::Rerun;
use crate::search::Trial;
use hol_device_io::write_all;
use hol_explain_hints::{
    Answer, Known, Message, Origin, Piece, Place, Told, learn, miss, push_accepted, push_refusal,
    push_refused, unended,
};
use hol_host::Refiners;
use hol_model::{Fault, Sink};
use hol_script::execute::execute;
use hol_script::{Manager, Printed, Refused};
use hol_script_commands::cut::{cut, is_blank_text};
use std::alloc::Global;

/// A script, the files that its lines come from, in order, and the names of the host's functions.
#[derive(Clone, Copy)]
pub struct Script<'a> {
    pub origins: &'a [Origin<'a>],
    pub text: &'a [u8],
    pub host_names: &'a [String],
}

/// A walk over a script, with the functions of a host: whether it tells each command by a record, or refused ones by a message and
/// suspicious ones by notes.
#[derive(Drop)]
pub struct Walk<'a, H> {
    alloc: Global,
    pub(crate) script: &'a Script<'a>,
    host: &'a H,
    makes_records: bool,
}

impl<'s, H> Walk<'s, H> {
    /// One that tells each command that is refused by a message: the file, and in it the line and the column of the part in question,
    /// the refusal, and what was expected and what stands there. Of one that is accepted and suspicious it writes a note: the place,
    /// and what it does that may not be meant.
    pub fn new(alloc: Global, script: &'s Script<'s>, host: &'s H) -> Walk<'s, H> {
        Walk {
            alloc,
            script,
            host,
            makes_records: false,
        }
    }

    /// One that tells each command by a line of JSON: its file, where it begins and where it ends (lines and columns from 1, columns in
    /// bytes), its first word, what a run prints for it (`text`), the open goals where it shows them, and its refusal with number,
    /// name, place and message.
    pub fn of_records(alloc: Global, script: &'s Script<'s>, host: &'s H) -> Walk<'s, H> {
        let mut walk = Walk::new(alloc, script, host);
        walk.makes_records = true;
        walk
    }

    // With what parts of a command are tried.
    fn trial<'a>(&'a self, piece: &'a Piece<'a>) -> Trial<'a, H> {
        Trial {
            alloc: self.alloc,
            host: self.host,
            piece,
        }
    }

    // A command behind a place, and the mark that ends it.
    fn told<'a>(&'a self, piece: &'a Piece<'a>, place: &Place, mark: &'a [u8]) -> Told<'a> {
        Told::new(self.script.origins, piece, *place, mark)
    }
}

// Puts what is said of a refused command at the end, behind the line of the refusal or as a record.
fn tell_refused<H>(
    walk: &Walk<'_, H>,
    told: &Told<'_>,
    refused: &Refused,
    message: &Message,
    lines: &mut Message,
) {
    let fault = &refused.fault;
    if !walk.makes_records {
        push_refusal(walk.alloc, told, fault, message, lines);
        return;
    }
    let row = match &refused.row {
        Some(row) => row.as_str(),
        None => "",
    };
    push_refused(walk.alloc, told, (fault, row), message, lines);
}

// Explains a refused command.
fn explain_refused<H: Refiners>(
    walk: &Walk<'_, H>,
    known: &Known,
    manager: &mut Manager,
    told: &Told<'_>,
    refused: &Refused,
    lines: &mut Message,
)
    requires { IsManager manager.old }
    ensures { IsManager manager.new }
{
    let trial = walk.trial(told.piece);
    let host_names = walk.script.host_names;
    let mut message = Message::new(walk.alloc);
    trial.explain_command(host_names, known, manager, refused, &mut message);
    tell_refused(walk, told, refused, &message, lines);
}

// Puts the record of a command at the end that is accepted.
fn push_answer<'a>(
    alloc: Global,
    told: &'a Told<'a>,
    text: &'a str,
    shows_goals: bool,
    lines: &mut Message,
) {
    push_accepted(alloc, told, Answer { text, shows_goals }, lines);
}

// Tells a command that is accepted.
fn tell_accepted<H: Refiners>(
    walk: &Walk<'_, H>,
    known: &Known,
    manager: &mut Manager,
    told: &Told<'_>,
    printed: &Printed,
    lines: &mut Message,
)
    requires { IsManager manager.old }
    ensures { IsManager manager.new }
{
    if !walk.makes_records {
        walk.trial(told.piece)
            .note_command(told, known, manager, lines);
        return;
    }
    let (text, shows_goals) = match printed {
        Printed::Nothing => ("", false),
        Printed::Line(line) => (line.text.as_str(), false),
        Printed::Goals(text) => (text.as_str(), true),
    };
    push_answer(walk.alloc, told, text, shows_goals, lines);
}

// Runs a command, and puts what is told of it at the end. Answers whether it was refused.
fn answer<H: Refiners>(
    walk: &Walk<'_, H>,
    known: &mut Known,
    manager: &mut Manager,
    piece: &Piece<'_>,
    place: &Place,
    lines: &mut Message,
) -> bool
    requires { IsManager manager.old }
    ensures { IsManager manager.new }
{
    let alloc = walk.alloc;
    let told = walk.told(piece, place, b";;");
    match execute(manager, alloc, walk.host, piece.bytes) {
        Ok(printed) => {
            tell_accepted(walk, known, manager, &told, &printed, lines);
            let goals = match &printed {
                Printed::Goals(text) => Some(text.as_str()),
                _ => None,
            };
            let _learnt = lines.made(learn(alloc, known, &told, goals));
            false
        }
        Err(refused) => {
            explain_refused(walk, known, manager, &told, &refused, lines);
            let _missed = lines.made(miss(alloc, known, &told));
            true
        }
    }
}

// Explains a command that is refused when a script begins.
fn explain_begin<H: Refiners>(
    walk: &Walk<'_, H>,
    piece: &Piece<'_>,
    refused: &Refused,
    lines: &mut Message,
) {
    let told = walk.told(piece, &Place::start(), b";;");
    match Rerun::new(walk.alloc) {
        Ok(mut rerun) => {
            explain_refused(
                walk,
                &rerun.known,
                &mut rerun.manager,
                &told,
                refused,
                lines,
            );
            drop(rerun);
        }
        Err(fault) => lines.push_made(Err(fault)),
    }
}

// Explains the first command of a script, which is refused when a script begins.
fn explain_first<H: Refiners>(walk: &Walk<'_, H>, refused: &Refused, lines: &mut Message) {
    let command = match cut(walk.script.text) {
        Some((command, _)) => command,
        None => walk.script.text,
    };
    if let Some(piece) = lines.made(Piece::new(walk.alloc, command)) {
        explain_begin(walk, &piece, refused, lines);
    }
}

// Writes lines, where there was memory for them.
fn write_lines<W: Sink>(writer: &mut W, lines: &Message) -> Result<(), Fault>
    requires { W.has_failed writer.old ≡ false }
    ensures unfailed { OnOk result (W.has_failed writer.new ≡ false) }
    ensures refusals { IfErr result (Contains (WriteFault ∷ Memory ∷ [])) }
{
    let Ok(text) = lines.text() else {
        return Err(Fault::Memory);
    };
    match write_all(writer, text.as_bytes()) {
        Ok(()) => Ok(()),
        Err(_) => Err(Fault::WriteFault),
    }
}

/// Runs a command, and writes what is told of it. Answers whether it was refused.
pub(crate) fn explain_piece<W: Sink, H: Refiners>(
    walk: &Walk<'_, H>,
    writer: &mut W,
    known: &mut Known,
    manager: &mut Manager,
    piece: &[u8],
    place: &Place,
) -> Result<bool, Fault>
    requires unfailed { W.has_failed writer.old ≡ false }
    requires manager { IsManager manager.old }
    ensures unfailed { OnOk result (W.has_failed writer.new ≡ false) }
    ensures manager { IsManager manager.new }
    ensures refusals { IfErr result (Contains (WriteFault ∷ Memory ∷ [])) }
{
    let Ok(piece) = Piece::new(walk.alloc, piece) else {
        return Err(Fault::Memory);
    };
    let mut lines = Message::new(walk.alloc);
    let is_refused = answer(walk, known, manager, &piece, place, &mut lines);
    write_lines(writer, &lines)?;
    Ok(is_refused)
}

// Tells a rest without a mark behind it, which begins at a place.
fn tell_unended<H>(walk: &Walk<'_, H>, rest: &Piece<'_>, place: &Place, lines: &mut Message) {
    let told = walk.told(rest, place, b"");
    let message = unended(walk.alloc, rest.start(0));
    tell_refused(walk, &told, &Refused::plain(Fault::Syntax), &message, lines);
}

/// Writes what is told of a rest without a mark behind it.
pub(crate) fn explain_rest<W: Sink, H: Refiners>(
    walk: &Walk<'_, H>,
    writer: &mut W,
    rest: &[u8],
    place: &Place,
) -> Result<(), Fault>
    requires { W.has_failed writer.old ≡ false }
    ensures { IfErr result (Contains (WriteFault ∷ Memory ∷ [])) }
{
    let Ok(rest) = Piece::new(walk.alloc, rest) else {
        return Err(Fault::Memory);
    };
    let mut lines = Message::new(walk.alloc);
    tell_unended(walk, &rest, place, &mut lines);
    write_lines(writer, &lines)
}

// Runs the commands of a script, and writes what is told of each. Answers how many were refused.
fn explain_pieces<W: Sink, H: Refiners>(
    walk: &Walk<'_, H>,
    writer: &mut W,
    known: &mut Known,
    manager: &mut Manager,
) -> Result<u64, Fault>
    requires unfailed { W.has_failed writer.old ≡ false }
    requires manager { IsManager manager.old }
    ensures { IfErr result (Contains (WriteFault ∷ Memory ∷ [])) }
{
    let mut refused = 0u64;
    let mut rest = walk.script.text;
    let mut place = Place::start();
    for _ in 0..walk.script.text.len() {
        let Some((piece, behind)) = cut(rest) else {
            break;
        };
        if !is_blank_text(piece) {
            let is_refused = explain_piece(walk, writer, known, manager, piece, &place)?;
            refused = refused.saturating_add(is_refused as u64);
        }
        place = place.behind(piece).behind(b";;");
        rest = behind;
    }
    if is_blank_text(rest) {
        return Ok(refused);
    }
    explain_rest(walk, writer, rest, &place)?;
    Ok(refused.saturating_add(1))
}

/// Runs the commands of a walk's script once more, over a proof manager of its own, and writes what the walk tells of them. What that
/// says takes part in no promise. Answers how many commands were refused, which are others than a run refused where a function of the
/// host answers otherwise each time. Refused: Memory, and WriteFault where the sink failed.
pub fn explain<W: Sink, H: Refiners>(walk: &Walk<'_, H>, writer: &mut W) -> Result<u64, Fault>
    requires { W.has_failed writer.old ≡ false }
    ensures { IfErr result (Contains (WriteFault ∷ Memory ∷ [])) }
{
    let mut rerun = Rerun::new(walk.alloc)?;
    let refused = explain_pieces(walk, writer, &mut rerun.known, &mut rerun.manager);
    drop(rerun);
    refused
}

/// What a walk tells of the first command of its script, where that is refused so when a script begins. Refused: Memory.
pub fn explain_refusal<H: Refiners>(
    walk: &Walk<'_, H>,
    refused: &Refused,
) -> Result<String, Fault> {
    let mut lines = Message::new(walk.alloc);
    explain_first(walk, refused, &mut lines);
    match lines.finish() {
        Ok(text) => Ok(text),
        Err(_) => Err(Fault::Memory),
    }
}

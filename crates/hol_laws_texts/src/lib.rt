//! Laws of what texts say, which stand on the grammars and on their readers.
//!
//! Each function is a law: its clause is the law's statement, for callers' proofs.
#![tactic(auto)]

ghost use Rattle.hol_laws_sessions.specs.UniqueReadings.{TacticsAreUnambiguous, CommandsAreUnambiguous};
ghost use Rattle.hol_laws_texts.specs.Readings.{LinesTellTheirSequents, NoLineReadsAsFalsity, WrittenTheoremsAreTrue};

use hol_laws_sessions::{
    commands_are_unambiguous, lines_that_begin_so_are_theorems, no_line_is_falsity,
    tactics_are_unambiguous, written_lines_are_told,
};
use hol_syntax::sequents_are_unambiguous;

/// Tokens are one refiner expression's.
pub fn tactics_have_one_reading()
    ensures { TacticsAreUnambiguous }
{
    tactics_are_unambiguous();
}

/// A text is one command's.
pub fn commands_have_one_reading()
    ensures { CommandsAreUnambiguous }
{
    commands_are_unambiguous();
}

/// The sequent as which a line of a script's output is read behind a name follows and holds.
pub fn lines_tell_their_sequents()
    ensures { LinesTellTheirSequents }
{
    lines_that_begin_so_are_theorems();
    sequents_are_unambiguous();
}

/// No line of a script's output is read as falsity without hypotheses.
pub fn no_line_reads_as_falsity()
    ensures { NoLineReadsAsFalsity }
{
    lines_that_begin_so_are_theorems();
    sequents_are_unambiguous();
    no_line_is_falsity();
}

/// Each line that a run wrote whole and that begins with an identifier, a colon and a space is read as one sequent over a
/// theory that the script declares, and this sequent follows and holds there.
pub fn written_theorems_are_true()
    ensures { WrittenTheoremsAreTrue }
{
    lines_that_begin_so_are_theorems();
    sequents_are_unambiguous();
    written_lines_are_told();
}

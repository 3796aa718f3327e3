// The theorem of a goal by a finished justification.
ghost use Rattle.std.specs.Prelude.{◌≡◌, [], IfOk};
ghost use Rattle.hol_journal.specs.Journal.{IsMade, theorem_in};
ghost use Rattle.hol_just.specs.Steps.{goal_of, tree_of};
ghost use Rattle.hol_goals.specs.Expansions.{Proves};
ghost use Rattle.hol_theorem_library.specs.Library.{IsLibrary, IsContinued, store_in};

use hol_goals::{closed, replay};
use hol_journal::{Rec, journals_grow};
use hol_just::{Goal, Just};
use hol_model::Fault;
use hol_theorem_library::{Library, libraries_continue};

/// The theorem of the goal's own term by a justification without subgoals: the justification is replayed once, and what it
/// proves is given the goal's term. Refused as the replay is, then InvalidStep where its theorem does not achieve the goal, and
/// TooLarge where the equation of the goal's term is; Memory.
pub(crate) fn prove(library: &mut Library, goal: &Goal, just: &Just) -> Result<Rec, Fault>
    requires library { IsLibrary library.old }
    ensures outcome { Proves library.old.recorder.theory (store_in library.old) (goal_of goal.now) (tree_of just.now) (theorem_in result) }
    ensures continued { IsContinued library.old library.new }
    ensures library { IsLibrary library.new }
    ensures made { IfOk result (IsMade library.new.recorder) }
{
    journals_grow();
    libraries_continue();
    let recorder = &mut library.recorder;
    let theorem = replay(recorder, &library.logic, &library.store, just, &[])?;
    closed(recorder, goal, &theorem)
}

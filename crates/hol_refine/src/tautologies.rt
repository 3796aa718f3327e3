// TAUT_TAC.
ghost use Rattle.std.specs.Prelude.{IfOk};
ghost use Rattle.hol_model.specs.Refining.Refiners.{AnswersTautology};
ghost use Rattle.hol_just.specs.Steps.{goal_of};
ghost use Rattle.hol_journal.specs.Journal.{IsMade, theorem_in};
ghost use Rattle.hol_refine.specs.TableAnswers.{step_in};
ghost use Rattle.hol_theorem_library.specs.Library.{IsLibrary, IsContinued, store_in};
ghost use Rattle.hol_refine.specs.Growth.{IsExtended};
ghost use Rattle.hol_refine.specs.Answers.{AnswersTaut};

use crate::lemmas::by_theorem;
use hol_journal::Rec;
use hol_just::{Goal, Step};
use hol_model::Fault;
use hol_taut::taut;
use hol_terms::Term;
use hol_theorem_library::{Library, libraries_continue};

// TAUT, over a library.
fn tautology(library: &mut Library, term: &Term) -> Result<Rec, Fault>
    requires library { IsLibrary library.old }
    ensures library { IsLibrary library.new }
    ensures continued { IsContinued library.old library.new }
    ensures made { IfOk result (IsMade library.new.recorder) }
    ensures outcome { AnswersTautology library.old.recorder.theory term.now (theorem_in result) }
{
    libraries_continue();
    taut(&mut library.recorder, &library.laws, term)
}

/// TAUT_TAC: the goal is a tautology.
pub(crate) fn taut_tac(library: &mut Library, goal: &Goal) -> Result<Step, Fault>
    requires library { IsLibrary library.old }
    ensures outcome { AnswersTaut library.old.recorder.theory (store_in library.old) (goal_of goal.now) (step_in result) (store_in library.new) }
    ensures library { IsLibrary library.new }
    ensures extended { IsExtended library.old library.new }
{
    let theorem = tautology(library, &goal.concl)?;
    by_theorem(library, theorem)
}

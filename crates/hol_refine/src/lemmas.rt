// Theorems that become lemmas, and the steps by them.
ghost use Rattle.std.specs.Prelude.{◌≡◌, Ok, length, OnOk, OnErr, IfErr};
ghost use Rattle.hol_model.specs.declared.fault.Fault.TheVariants.{Memory};
ghost use Rattle.hol_model.specs.Goals.Replays.{with_lemma, IsKnownGoal};
ghost use Rattle.hol_model.specs.Refining.Refiners as refiners;
ghost use Rattle.hol_laws_refiners.specs.Laws.{IsEquationOf};
ghost use Rattle.hol_just.specs.Steps.{goal_of};
ghost use Rattle.hol_journal.specs.Journal.{IsMade};
ghost use Rattle.hol_refine.specs.TableAnswers.{step_in, AnswersStep};
ghost use Rattle.hol_theorem_library.specs.Library.{IsLibrary, store_in};
ghost use Rattle.hol_refine.specs.Growth.{IsExtended};
ghost use Rattle.hol_refine.specs.Answers.{AnswersConverted, AnswersProved};

use crate::assumed::are_assumed;
use crate::steps::{converted, proved};
use hol_equal::equality::equation_parts;
use hol_journal::Rec;
use hol_just::{Goal, Step};
use hol_model::Fault;
use hol_theorem_library::Library;

// One lemma more, behind the others. Refused, where nothing changes: Memory.
fn add_lemma(library: &mut Library, theorem: Rec) -> Result<(), Fault>
    requires library { IsLibrary library.old }
    requires made { IsMade library.old.recorder theorem }
    ensures ok { OnOk result (store_in library.new ≡ with_lemma (store_in library.old) theorem.theorem) }
    ensures err { IfErr result (λ fault. fault ≡ Memory) }
    ensures kept { OnErr result (store_in library.new ≡ store_in library.old) }
    ensures library { IsLibrary library.new }
    ensures extended { IsExtended library.old library.new }
{
    match library.store.add_lemma(theorem) {
        Ok(_) => Ok(()),
        Err(fault) => Err(fault),
    }
}

// The step that closes a goal by a theorem, which is to be the next lemma. Refused: Memory.
fn step_by_theorem(library: &Library) -> Result<Step, Fault>
    ensures { AnswersStep (Ok (refiners.proved_by_lemma (length (store_in library.now).lemmas))) (step_in result) }
{
    let alloc = library.recorder.alloc();
    proved(alloc, library.store.lemma_count())
}

/// The step by an equation of the goal's target, which becomes a lemma. Refused, where the store stays: RefineFails unless its
/// hypotheses are assumed; Memory.
pub(crate) fn by_equation(library: &mut Library, goal: &Goal, theorem: Rec) -> Result<Step, Fault>
    requires library { IsLibrary library.old }
    requires known { IsKnownGoal library.old.recorder.theory (goal_of goal.now) }
    requires made { IsMade library.old.recorder theorem }
    requires equation { IsEquationOf goal.now.concl theorem.theorem }
    ensures outcome { AnswersConverted library.old.recorder.theory (store_in library.old) (goal_of goal.now) theorem.theorem (step_in result) (store_in library.new) }
    ensures library { IsLibrary library.new }
    ensures extended { IsExtended library.old library.new }
{
    library.recorder.theory_is_legal();
    if !are_assumed(theorem.theorem().hyps(), goal) {
        return Err(Fault::RefineFails);
    }
    let Some(sides) = equation_parts(theorem.theorem().concl()) else {
        unreachable!()
    };
    let step = converted(
        library.recorder.alloc(),
        library.store.lemma_count(),
        goal,
        sides.right,
    )?;
    add_lemma(library, theorem)?;
    Ok(step)
}

/// The step that closes a goal by a theorem, which becomes a lemma. Refused, where the store stays: Memory.
pub(crate) fn by_theorem(library: &mut Library, theorem: Rec) -> Result<Step, Fault>
    requires library { IsLibrary library.old }
    requires made { IsMade library.old.recorder theorem }
    ensures outcome { AnswersProved library.old.recorder.theory (store_in library.old) theorem.theorem (step_in result) (store_in library.new) }
    ensures library { IsLibrary library.new }
    ensures extended { IsExtended library.old library.new }
{
    let _hypotheses = theorem.theorem().hyps();
    let step = step_by_theorem(library)?;
    add_lemma(library, theorem)?;
    Ok(step)
}

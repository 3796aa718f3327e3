// Refining by a refiner without parts.
ghost use Rattle.hol_model.specs.Goals.Replays.{IsKnownGoal};
ghost use Rattle.hol_just.specs.Steps.{goal_of};
ghost use Rattle.hol_combine.specs.Answers.{LeafRefines};
ghost use Rattle.hol_theorem_library.specs.Library.{IsLibrary, store_in};
ghost use Rattle.hol_refine.specs.Growth.{IsExtended};

use crate::conversions::{conv_tac, rewrite_tac};
use crate::converting::Conversions;
use crate::table::leaf_step;
use crate::tautologies::taut_tac;
use hol_host::Refiners;
use hol_just::{Goal, Step};
use hol_model::Fault;
use hol_tactic_exprs::{Fuel, Leaf};
use hol_terms::Term;
use hol_theorem_library::Library;

/// Refines a known goal by a refiner without parts: a step is spent, and then the answer is one that the refiner may have
/// (hol_model, Combinators). The theorem of CONV_TAC, REWRITE_TAC and TAUT_TAC is one more lemma where they answer a step, and
/// the store stays as it is where they are refused. Refused: StepLimit where no step is left; what the table refuses; of
/// CONV_TAC what the conversion is refused for, of REWRITE_TAC UnknownName and what the rules of its theorems and rewriting
/// by them are refused for, and of both RefineFails where a hypothesis of what was proved is not assumed; of TAUT_TAC what TAUT
/// is refused for; and Memory.
pub fn refine<H: Refiners, C: Conversions>(
    library: &mut Library,
    conversions: &C,
    hosts: &H,
    leaf: &Leaf<Term>,
    goal: &Goal,
    fuel: &mut Fuel,
) -> Result<Step, Fault>
    requires library { IsLibrary library.old }
    requires known { IsKnownGoal library.old.recorder.theory (goal_of goal.now) }
    ensures outcome { LeafRefines (H.refiners hosts.now) (H.conversions hosts.now) library.old.recorder.theory
        (store_in library.old) fuel.old.left leaf.now goal.now result (store_in library.new) fuel.new.left }
    ensures library { IsLibrary library.new }
    ensures extended { IsExtended library.old library.new }
{
    if !fuel.spend() {
        return Err(Fault::StepLimit);
    }
    match leaf {
        Leaf::Conv(conv) => conv_tac(library, conversions, hosts, conv, goal, fuel),
        Leaf::Rewrite(names) => rewrite_tac(library, conversions, hosts, names, goal, fuel),
        Leaf::Taut => taut_tac(library, goal),
        _ => {
            library.recorder.theory_is_legal();
            leaf_step(
                library.recorder.alloc(),
                library.recorder.theory(),
                &library.store,
                leaf,
                goal,
            )
        }
    }
}

// CONV_TAC and REWRITE_TAC.
ghost use Rattle.std.specs.Prelude.{◌≡◌, true, map, string_bytes};
ghost use Rattle.hol_model.specs.Logic.KnownTerm.{is_known};
ghost use Rattle.hol_model.specs.Goals.Replays.{IsKnownGoal};
ghost use Rattle.hol_model.specs.Refining.Refiners as refiners;
ghost use Rattle.hol_tactic_exprs.specs.Expressions.{conversion_of};
ghost use Rattle.hol_just.specs.Steps.{goal_of};
ghost use Rattle.hol_theorem_library.specs.Library.{IsLibrary};
ghost use Rattle.hol_refine.specs.Growth.{IsExtended};
ghost use Rattle.hol_refine.specs.Answers.{RefinesOn};

use crate::converting::Conversions;
use crate::lemmas::by_equation;
use crate::rules::rules_named;
use hol_host::Refiners;
use hol_just::{Goal, Step};
use hol_model::Fault;
use hol_tactic_exprs::{Conv, Fuel};
use hol_theorem_library::Library;

/// CONV_TAC: the goal by what the conversion proves of its target.
pub(crate) fn conv_tac<H: Refiners, C: Conversions>(
    library: &mut Library,
    conversions: &C,
    hosts: &H,
    conv: &Conv,
    goal: &Goal,
    fuel: &mut Fuel,
) -> Result<Step, Fault>
    requires library { IsLibrary library.old }
    requires known { IsKnownGoal library.old.recorder.theory (goal_of goal.now) }
    ensures outcome { RefinesOn (H.refiners hosts.now) (H.conversions hosts.now) library.old fuel.old.left (refiners.conv_tac (conversion_of conv.now)) goal.now result library.new fuel.new.left }
    ensures library { IsLibrary library.new }
    ensures extended { IsExtended library.old library.new }
{
    let alloc = library.recorder.alloc();
    let theorem = conversions.apply(library, alloc, hosts, conv, &goal.concl, fuel)?;
    by_equation(library, goal, theorem)
}

/// REWRITE_TAC: the goal by what rewriting with the theorems of the names, from the top down, proves of its target.
pub(crate) fn rewrite_tac<H: Refiners, C: Conversions>(
    library: &mut Library,
    conversions: &C,
    hosts: &H,
    names: &[String],
    goal: &Goal,
    fuel: &mut Fuel,
) -> Result<Step, Fault>
    requires library { IsLibrary library.old }
    requires known { IsKnownGoal library.old.recorder.theory (goal_of goal.now) }
    ensures outcome { RefinesOn (H.refiners hosts.now) (H.conversions hosts.now) library.old fuel.old.left
        (refiners.rewrite_tac (map string_bytes names.now)) goal.now result library.new fuel.new.left }
    ensures library { IsLibrary library.new }
    ensures extended { IsExtended library.old library.new }
{
    let alloc = library.recorder.alloc();
    let rules = rules_named(library, names)?;
    let theorem = conversions.rewrite(library, alloc, hosts, &rules, &goal.concl, fuel)?;
    by_equation(library, goal, theorem)
}

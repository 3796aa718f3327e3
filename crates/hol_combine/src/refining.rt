// Runs a refiner expression on a goal that the theory knows.
ghost use Rattle.std.specs.Prelude.{◌≡◌, IfOk};
ghost use Rattle.hol_model.specs.Goals.Replays.{IsStoreOver};
ghost use Rattle.hol_model.specs.Goals.GoodSteps.{IsGoodStep};
ghost use Rattle.hol_model.specs.Refining.Combinators.{IsLater, at};
ghost use Rattle.hol_tactic_exprs.specs.Expressions.{tactic_of};
ghost use Rattle.hol_just.specs.Steps.{goal_of, step_of};
ghost use Rattle.hol_combine.specs.Posed.{IsPosed};
ghost use Rattle.hol_combine.specs.Answers.{Refines};

use crate::leaves::Leaves;
use crate::running::{Setting, run};
use hol_host::Refiners;
use hol_just::{Goal, Step};
use hol_model::Fault;
use hol_tactic_exprs::{Fuel, Tac};
use hol_terms::Term;
use std::alloc::Global;

/// Refines a known goal by an expression whose witnesses are known: the answer is one that the expression may have
/// (hol_model, Combinators). A step is valid for the goal, and its subgoals are known, whatever a host's functions answered.
/// Lemmas are added alone, also where it is refused, and only of theorems of the theory; no more steps are left than before.
/// Refused: StepLimit where no step is left; what the refiner without parts is refused for that was run last; of a host's
/// refiner UnknownName, RefineFails where it fails, InvalidStep where the test of steps does not accept its step;
/// LengthMismatch of a THENL with another number of refiners than subgoals, of which there are some; TooLarge where a
/// justification is deeper than the limit; Memory.
pub fn refine_goal<H: Refiners, L: Leaves>(
    alloc: Global,
    tac: &Tac<Term>,
    goal: &Goal,
    host: &H,
    leaves: &mut L,
    fuel: &mut Fuel,
) -> Result<Step, Fault>
    requires ready { L.is_ready leaves.old }
    requires posed { IsPosed (L.theory leaves.old) (L.store leaves.old) (tactic_of tac.now) (goal_of goal.now) }
    ensures outcome { Refines (H.refiners host.now) (H.conversions host.now) (L.theory leaves.old) (L.store leaves.old) fuel.old.left tac.now goal.now result (L.store leaves.new) fuel.new.left }
    ensures valid { IfOk result (λ step. IsGoodStep (L.theory leaves.old) (L.store leaves.new) (goal_of goal.now) (step_of step)) }
    ensures later { IsLater (L.theory leaves.old) (at (L.store leaves.old) fuel.old.left) (at (L.store leaves.new) fuel.new.left) }
    ensures store { IsStoreOver (L.theory leaves.old) (L.store leaves.new) }
    ensures theory { L.theory leaves.new ≡ L.theory leaves.old }
    ensures ready { L.is_ready leaves.new }
    ensures extends { L.extends leaves.old leaves.new }
{
    run(&Setting { alloc, host }, tac, goal, leaves, fuel)
}

// What stands in front of the refiners without parts. What is above is generic in it.
ghost use Rattle.std.specs.Prelude.{◌≡◌};
ghost use Rattle.hol_model.specs.Logic.Theory.{Theory};
ghost use Rattle.hol_model.specs.Goals.Replays.{Store};
ghost use Rattle.hol_model.specs.Refining.HostFunctions.{AnswersAccept};
ghost use Rattle.hol_model.specs.Refining.Combinators as combinators;
ghost use Rattle.hol_tactic_exprs.specs.Expressions.{leaf_of};
ghost use Rattle.hol_just.specs.Steps.{goal_of, step_of};
ghost use Rattle.hol_combine.specs.Posed.{IsPosed};
ghost use Rattle.hol_combine.specs.Answers.{LeafRefines};

use hol_host::Refiners;
use hol_just::{Goal, Step};
use hol_model::Fault;
use hol_tactic_exprs::{Fuel, Leaf};
use hol_terms::Term;
use std::alloc::Global;

/// Refines by refiners without parts and tests steps, over a theory that stays and a store that gets lemmas.
pub trait Leaves {
    /// The theory.
    ghost theory: { Self → Theory };

    /// The stored theorems, and the lemmas.
    ghost store: { Self → Store };

    /// That it may be called.
    ghost is_ready: { Self → Type 0 };

    /// The second is the first, or what calls have made of it.
    ghost extends: { Self → Self → Type 0 };

    /// Refines a known goal by a refiner without parts; a host's conversions may be called.
    fn refine<H: Refiners>(
        &mut self,
        alloc: Global,
        leaf: &Leaf<Term>,
        goal: &Goal,
        host: &H,
        fuel: &mut Fuel,
    ) -> Result<Step, Fault>
        requires ready { is_ready self.old }
        requires posed { IsPosed (theory self.old) (store self.old) (combinators.leaf (leaf_of leaf.now)) (goal_of goal.now) }
        ensures outcome { LeafRefines (H.refiners host.now) (H.conversions host.now) (theory self.old) (store self.old) fuel.old.left leaf.now goal.now result (store self.new) fuel.new.left }
        ensures theory { theory self.new ≡ theory self.old }
        ensures ready { is_ready self.new }
        ensures extends { extends self.old self.new };

    /// Whether the step makes the goal of its subgoals, and these are of known formulas: the test of a step that is not trusted.
    fn accept(&mut self, alloc: Global, goal: &Goal, step: &Step) -> Result<(), Fault>
        requires ready { is_ready self.old }
        ensures outcome { AnswersAccept (theory self.old) (store self.old) (goal_of goal.now) (step_of step.now) result }
        ensures theory { theory self.new ≡ theory self.old }
        ensures store { store self.new ≡ store self.old }
        ensures ready { is_ready self.new }
        ensures extends { extends self.old self.new };

    /// What is made of it by no call.
    ghost extends_self: { (leaves : Self) → extends leaves leaves };

    /// What is made of it by calls after calls.
    ghost extends_twice: { (first second third : Self) → extends first second → extends second third → extends first third };
}

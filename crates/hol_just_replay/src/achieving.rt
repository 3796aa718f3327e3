// Whether a theorem achieves a goal.
ghost use Rattle.std.specs.Bool.{Decides};
ghost use Rattle.std.specs.Prelude.{◌≡◌, map};
ghost use Rattle.std.specs.List.{list_any};
ghost use Rattle.hol_model.specs.Terms.Nameless.{image};
ghost use Rattle.hol_model.specs.Derived.DerivedRules.{is_among};
ghost use Rattle.hol_model.specs.Goals.Goals.{Achieves};
ghost use Rattle.hol_model.specs.Goals.Achieving.{are_assumed, achieves};
ghost use Rattle.hol_model.specs.Kernel.Theorem.{are_alpha_equivalent};
ghost use Rattle.hol_just.specs.Steps.{goal_of};
ghost use Rattle.hol_just_replay.specs.Named.{sequent_of_recorded};

use hol_alpha::aconv;
use hol_journal::{Rec, Recorder};
use hol_just::Goal;
use hol_terms::Term;

// Whether the term is one of a list, up to the names of bound variables.
fn is_one_of(term: &Term, terms: &[Term]) -> bool
    ensures { result ≡ list_any (λ other. are_alpha_equivalent term.now other) terms.now }
{
    terms.iter().any(|other| aconv(term, other))
}

// Whether the term's image is one of theirs.
#[tactic(auto, using(crate::proofs::AchievingLemmas::among))]
pub(crate) fn is_among(term: &Term, terms: &[Term]) -> bool
    ensures { result ≡ is_among (image term.now) (map image terms.now) }
{
    is_one_of(term, terms)
}

// Whether the goal assumes each of the terms, up to the names of bound variables.
fn are_assumed(terms: &[Term], goal: &Goal) -> bool
    ensures { result ≡ are_assumed terms.now (goal_of goal.now) }
{
    terms.iter().all(|term| is_among(term, &goal.asms))
}

// Whether the test passes.
fn passes(recorder: &Recorder, theorem: &Rec, goal: &Goal) -> bool
    ensures { result ≡ achieves (goal_of goal.now) theorem.now.theorem }
{
    let theorem = recorder.thm(theorem);
    aconv(theorem.concl(), &goal.concl) && are_assumed(theorem.hyps(), goal)
}

/// Whether the theorem achieves the goal: its conclusion is the goal's, and each hypothesis is an assumption, up to the
/// names of bound variables (as HOL Light's `VALID`, tactics.ml, compares them).
pub fn achieves(recorder: &Recorder, theorem: &Rec, goal: &Goal) -> bool
    ensures { Decides result (Achieves (goal_of goal.now) (sequent_of_recorded theorem.now)) }
{
    passes(recorder, theorem, goal)
}

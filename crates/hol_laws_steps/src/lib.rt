//! The laws on justifications and on the steps of a proof from the goal back.
//!
//! Each function is a law: it does nothing, and its clause is the law's statement, for callers' proofs.
#![tactic(auto)]

ghost use Rattle.hol_model.specs.Goals.JustificationLaws.{RulesAreMonotone, IsMonotone, ReplaysShowValid, SpliceHasSequent, SplicesValid, StaysValid};

/// From premises with fewer hypotheses a rule draws the same conclusion with no more hypotheses.
pub fn rules_are_monotone()
    ensures { RulesAreMonotone }
{}

/// From subgoals with fewer hypotheses a justification makes the same conclusion with no more hypotheses.
pub fn monotone()
    ensures { IsMonotone }
{}

/// A step that makes the goal under `F`, and again under `F /\ F`, is valid.
pub fn replays_show_valid()
    ensures { ReplaysShowValid }
{}

/// The sequent of a spliced justification is that of the justification over the sequents of its portions.
pub fn splice_has_sequent()
    ensures { SpliceHasSequent }
{}

/// A valid step whose subgoals are refined by valid steps is valid.
pub fn splices_valid()
    ensures { SplicesValid }
{}

/// What is valid stays so while the theory and the store grow.
pub fn stays_valid()
    ensures { StaysValid }
{}

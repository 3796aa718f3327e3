//! The laws on what conversions and refiner expressions may answer.
//!
//! Each function is a law: it does nothing, and its clause is the law's statement, for callers' proofs.
#![tactic(auto)]

ghost use Rattle.hol_laws_refiners.specs.Examples.{ExamplesRun};
ghost use Rattle.hol_model.specs.Refining.HostFunctions.{HostConversions, Host};
ghost use Rattle.hol_laws_refiners.specs.Laws.{ConversionsAnswerEquations, EquationsOfTargets, ConversionsSpend, RefinersSpend, RefinersAnswerValid};

/// A host with conversions.
pub trait Converting {
    ghost conversions: { HostConversions };
}

/// A host with refiners and conversions.
pub trait Refining {
    ghost host: { Host };
}

/// A conversion spends no more steps than there are, and is refused for want of them only where none is left.
pub fn conversions_spend<C: Converting>()
    ensures { ConversionsSpend C.conversions }
{}

/// What a conversion answers on a term is an equation of the term.
pub fn conversions_answer_equations<C: Converting>()
    ensures { ConversionsAnswerEquations C.conversions }
{}

/// An equation of a known goal's target, proved over the theory, is an equation of formulas.
pub fn equations_of_targets()
    ensures { EquationsOfTargets }
{}

/// A refiner spends no more steps than there are, is refused for want of them only where none is left, and leaves further lemmas alone.
pub fn refiners_spend<R: Refining>()
    ensures { RefinersSpend R.host }
{}

/// What a refiner answers is a valid step, whatever a host's functions answer.
pub fn refiners_answer_valid<R: Refining>()
    ensures { RefinersAnswerValid R.host }
{}

/// Small runs, told step by step.
pub fn examples_run<R: Refining>()
    ensures { ExamplesRun R.host }
{}

// What a theorem leads to on the way to its rules.
ghost use Rattle.std.specs.Prelude.{◌≡◌, List, map, IfOk, IfErr};
ghost use Rattle.hol_model.specs.Terms.NamedTerm.{NamedTerm};
ghost use Rattle.hol_model.specs.Logic.NamedLogic.{Abstracted};
ghost use Rattle.hol_model.specs.Terms.Nameless.{image};
ghost use Rattle.hol_model.specs.Logic.Derivable.{IsSameSet};
ghost use Rattle.hol_journal.specs.Journal.{IsMade};
ghost use Rattle.hol_prelude.specs.HasLogic.{HasLogic};
ghost use Rattle.hol_model.specs.Rewrites.RewriteRules as spec;
ghost use Rattle.hol_equal.specs.Sequents.{IsPast};
ghost use Rattle.hol_rewrite.specs.Rules.{GoesOn, are_small};
ghost use Rattle.hol_rewrite.specs.Reduction.{IsReduced};

use crate::denial::denied;
use crate::forms::{Form, rule_form};
use crate::instances::at_fresh_variable;
use hol_bool::{conjunct1, conjunct2, eqt_intro};
use hol_equal::conclusion_of;
use hol_journal::{Rec, Recorder};
use hol_model::Fault;
use hol_prelude::Bool;
use hol_terms::Term;

// The theorems whose rules are those of a theorem, or its only rule.
pub(crate) enum Reduced {
    // The two parts of a conjunction.
    Parts(Rec, Rec),
    // The body of a universal theorem.
    Body(Rec),
    // The only rule.
    Rule(Rec),
}

// What one step comes to.
type Reduction = Result<Reduced, Fault>;

// The parts of `p /\ q`.
fn parts(recorder: &mut Recorder, logic: &Bool, theorem: &Rec) -> Reduction
    requires logic { HasLogic recorder.old logic.now }
    requires made { IsMade recorder.old theorem.now }
    requires form { (p : NamedTerm) × (q : NamedTerm) × (spec.rule_form theorem.now.theorem.conclusion ≡ spec.both p q) }
    ensures goes_on { GoesOn recorder.old recorder.new }
    ensures reduced { (under : List NamedTerm) → IsSameSet (map image theorem.now.theorem.hypotheses) (map image under) → IfOk result (IsReduced recorder.new under theorem.now.theorem) }
    ensures err { IfErr result (λ fault. IsPast fault (are_small theorem.now.theorem)) }
{
    let left = conjunct1(recorder, logic, theorem)?;
    let right = conjunct2(recorder, logic, theorem)?;
    Ok(Reduced::Parts(left, right))
}

// The body of `!x. p`.
fn body(recorder: &mut Recorder, logic: &Bool, hypotheses: &[Term], theorem: &Rec) -> Reduction
    requires logic { HasLogic recorder.old logic.now }
    requires made { IsMade recorder.old theorem.now }
    requires same { IsSameSet (map image theorem.now.theorem.hypotheses) (map image hypotheses.now) }
    requires form { (bound : Abstracted) × (spec.rule_form theorem.now.theorem.conclusion ≡ spec.every bound) }
    ensures goes_on { GoesOn recorder.old recorder.new }
    ensures reduced { IfOk result (IsReduced recorder.new hypotheses.now theorem.now.theorem) }
    ensures err { IfErr result (λ fault. IsPast fault (are_small theorem.now.theorem)) }
{
    let instance = at_fresh_variable(recorder, logic, hypotheses, theorem)?;
    Ok(Reduced::Body(instance))
}

// `p <=> F`, from `~p`.
fn falsity(recorder: &mut Recorder, logic: &Bool, part: &Term, theorem: &Rec) -> Reduction
    requires logic { HasLogic recorder.old logic.now }
    requires made { IsMade recorder.old theorem.now }
    requires form { spec.rule_form theorem.now.theorem.conclusion ≡ spec.denied part.now }
    ensures goes_on { GoesOn recorder.old recorder.new }
    ensures reduced { (under : List NamedTerm) → IsSameSet (map image theorem.now.theorem.hypotheses) (map image under) → IfOk result (IsReduced recorder.new under theorem.now.theorem) }
    ensures err { IfErr result (λ fault. IsPast fault (are_small theorem.now.theorem)) }
{
    let rule = denied(recorder, logic, part, theorem)?;
    Ok(Reduced::Rule(rule))
}

// `p <=> T`, from `p`.
fn truth(recorder: &mut Recorder, logic: &Bool, theorem: &Rec) -> Reduction
    requires logic { HasLogic recorder.old logic.now }
    requires made { IsMade recorder.old theorem.now }
    requires form { (p : NamedTerm) × (spec.rule_form theorem.now.theorem.conclusion ≡ spec.stated p) }
    ensures goes_on { GoesOn recorder.old recorder.new }
    ensures reduced { (under : List NamedTerm) → IsSameSet (map image theorem.now.theorem.hypotheses) (map image under) → IfOk result (IsReduced recorder.new under theorem.now.theorem) }
    ensures err { IfErr result (λ fault. IsPast fault (are_small theorem.now.theorem)) }
{
    let _conclusion = conclusion_of(recorder, theorem);
    let rule = eqt_intro(recorder, logic, theorem)?;
    Ok(Reduced::Rule(rule))
}

// One step towards the rules of a theorem, whose hypotheses are these.
pub(crate) fn reduce(
    recorder: &mut Recorder,
    logic: &Bool,
    hypotheses: &[Term],
    theorem: &Rec,
) -> Result<Reduced, Fault>
    requires logic { HasLogic recorder.old logic.now }
    requires made { IsMade recorder.old theorem.now }
    requires same { IsSameSet (map image theorem.now.theorem.hypotheses) (map image hypotheses.now) }
    ensures goes_on { GoesOn recorder.old recorder.new }
    ensures reduced { IfOk result (IsReduced recorder.new hypotheses.now theorem.now.theorem) }
    ensures err { IfErr result (λ fault. IsPast fault (are_small theorem.now.theorem)) }
{
    let conclusion = conclusion_of(recorder, theorem);
    match rule_form(conclusion) {
        Form::Both(_, _) => parts(recorder, logic, theorem),
        Form::Every(_, _, _) => body(recorder, logic, hypotheses, theorem),
        Form::Equal(_, _) => Ok(Reduced::Rule(theorem.copy(recorder.alloc())?)),
        Form::Denied(part) => falsity(recorder, logic, part, theorem),
        Form::Stated(_) => truth(recorder, logic, theorem),
    }
}

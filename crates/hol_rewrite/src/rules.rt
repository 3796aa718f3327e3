// The rules of a theorem.
ghost use Rattle.std.specs.Prelude.{◌≡◌, ◌++◌, ◌∷◌, [], map, Ok, Err, IfOk, IfErr};
ghost use Rattle.hol_model.specs.declared.fault.Fault.TheVariants.{Memory};
ghost use Rattle.hol_model.specs.Terms.Nameless.{image};
ghost use Rattle.hol_model.specs.Logic.Derivable.{IsSameSet};
ghost use Rattle.hol_model.specs.Rewrites.Rewriting.{AnswersRules};
ghost use Rattle.hol_journal.specs.Journal.{IsMade};
ghost use Rattle.hol_prelude_derivations.specs.Derivations.{AreMade, theorems};
ghost use Rattle.hol_prelude.specs.HasLogic.{HasLogic};
ghost use Rattle.hol_equal.specs.Sequents.{IsPast};
ghost use Rattle.hol_rewrite.specs.Rules.{HasRules, GoesOn, are_small};

use crate::reduction::{Reduced, reduce};
use hol_journal::{Rec, Recorder};
use hol_model::Fault;
use hol_prelude::Bool;
use hol_terms::Term;
use std::alloc::Global;

// One rule.
fn one(alloc: Global, rule: Rec) -> Result<Vec<Rec>, Fault>
    ensures ok { IfOk result (λ all. all.items ≡ rule ∷ []) }
    ensures err { IfErr result (λ fault. fault ≡ Memory) }
{
    let mut all = Vec::new(alloc);
    all.push(rule)?;
    Ok(all)
}

// Rules, and more behind them.
fn both(mut rules: Vec<Rec>, mut more: Vec<Rec>) -> Result<Vec<Rec>, Fault>
    ensures ok { IfOk result (λ all. all.items ≡ rules.items ++ more.items) }
    ensures err { IfErr result (λ fault. fault ≡ Memory) }
{
    rules.append(&mut more)?;
    Ok(rules)
}

// The rules of a theorem whose hypotheses are these.
#[tactic(auto, using(crate::proofs::Reducing::reducing))]
fn rules_under(
    alloc: Global,
    recorder: &mut Recorder,
    logic: &Bool,
    hypotheses: &[Term],
    theorem: &Rec,
) -> Result<Vec<Rec>, Fault>
    requires logic { HasLogic recorder.old logic.now }
    requires made { IsMade recorder.old theorem.now }
    requires same { IsSameSet (map image theorem.now.theorem.hypotheses) (map image hypotheses.now) }
    ensures goes_on { GoesOn recorder.old recorder.new }
    ensures made { IfOk result (λ rules. AreMade recorder.new rules.items) }
    ensures ok { IfOk result (λ rules. HasRules hypotheses.now theorem.now.theorem.conclusion (theorems rules.items)) }
    ensures err { IfErr result (λ fault. IsPast fault (are_small theorem.now.theorem)) }
{
    match reduce(recorder, logic, hypotheses, theorem) {
        Ok(Reduced::Parts(left, right)) => {
            let rules = rules_under(alloc, recorder, logic, hypotheses, &left)?;
            let more = rules_under(alloc, recorder, logic, hypotheses, &right)?;
            both(rules, more)
        }
        Ok(Reduced::Body(body)) => rules_under(alloc, recorder, logic, hypotheses, &body),
        Ok(Reduced::Rule(rule)) => one(alloc, rule),
        Err(fault) => Err(fault),
    }
}

/// The rules of a theorem, equations with its hypotheses, in order (as mk_rewrites of HOL Light's simp.ml, for theorems
/// without conditions): of `p /\ q` the rules of `p` and then those of `q`, of `!x. p` those of `p`, with primes at `x`
/// where it is free in the theorem, of `a = b` itself, of `~p` the rule `p <=> F`, and of another `p` the rule `p <=> T`.
///
/// Refused where a term of the theorem is not small and a term on the way passes a limit (`TooLarge`).
pub fn rules_of(recorder: &mut Recorder, logic: &Bool, theorem: &Rec) -> Result<Vec<Rec>, Fault>
    requires logic { HasLogic recorder.old logic.now }
    requires made { IsMade recorder.old theorem.now }
    ensures goes_on { GoesOn recorder.old recorder.new }
    ensures made { IfOk result (λ rules. AreMade recorder.new rules.items) }
    ensures ok { IfOk result (λ rules. AnswersRules theorem.now.theorem (Ok (theorems rules.items))) }
    ensures err { IfErr result (λ fault. AnswersRules theorem.now.theorem (Err fault)) }
{
    let alloc = recorder.alloc();
    let hypotheses = recorder.thm(theorem).hyps();
    rules_under(alloc, recorder, logic, hypotheses, theorem)
}

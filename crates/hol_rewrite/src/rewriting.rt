// Rewriting at one place.
ghost use Rattle.std.specs.Prelude.{◌≡◌, ◌⊎◌, true, false, Err, IfOk, IfErr};
ghost use Rattle.hol_model.specs.declared.fault.Fault.TheVariants.{Memory, TooLarge};
ghost use Rattle.hol_model.specs.Logic.KnownTerm.{is_known};
ghost use Rattle.hol_model.specs.Rewrites.Rewriting.{Rewrites, Applies, IsRewritten, has_fitting_instance};
ghost use Rattle.hol_journal.specs.Journal.{IsMade, theorem_in};
ghost use Rattle.hol_prelude_derivations.specs.Derivations.{AreMade, theorems};
ghost use Rattle.hol_journal.specs.Growth.{Continues};
ghost use Rattle.hol_rewrite.specs.RuleSides.{AreEquations, sides_of_rules};
ghost use Rattle.hol_rewrite.specs.Instances.{replacements_of};

use crate::choice::Choice;
use hol_equal::instance_known;
use hol_journal::{Rec, Recorder, within_limits};
use hol_match::Match;
use hol_model::Fault;
use hol_terms::Term;

/// Rewriting of a term, not of its parts, as REWRITES_CONV of HOL Light's simp.ml: the first rule in the list's order
/// whose left side matches the term, as `term_match` with the free variables of its hypotheses fixed, answers its
/// instance, `|- term = ..`, by INST_TYPE and then INST. A variable of the right side alone stays. The choice is that of
/// these rules, which are equations, and the term is known.
///
/// Refused, in this order: no rule matches (`NoMatch`); the instance of the first that matches passes a limit
/// (`TooLarge`), whatever later rules give.
pub fn rewrite_at(
    recorder: &mut Recorder,
    rules: &[Rec],
    choice: &Choice,
    term: &Term,
) -> Result<Rec, Fault>
    requires made { AreMade recorder.old rules.now }
    requires equations { AreEquations (theorems rules.now) }
    requires choice { choice.now ≡ sides_of_rules rules.now }
    requires known { is_known recorder.old.theory term.now ≡ true }
    ensures continues { Continues recorder.old recorder.new result }
    ensures rewrites { Rewrites (theorems rules.now) term.now (theorem_in result) ⊎ (theorem_in result ≡ Err Memory) }
{
    let alloc = recorder.alloc();
    let (place, found) = choice.first_match(alloc, term)?;
    rule_instance(recorder, &rules[place], &found, term)
}

// The instance of a rule by a match.
fn rule_instance(
    recorder: &mut Recorder,
    rule: &Rec,
    found: &Match,
    term: &Term,
) -> Result<Rec, Fault>
    requires made { IsMade recorder.old rule.now }
    requires applies { Applies rule.now.theorem term.now (replacements_of found.now) }
    requires known { is_known recorder.old.theory term.now ≡ true }
    ensures continues { Continues recorder.old recorder.new result }
    ensures rewritten { IfOk result (λ made. IsRewritten rule.now.theorem (replacements_of found.now) made.theorem) }
    ensures fits { IfOk result (λ _. has_fitting_instance rule.now.theorem (replacements_of found.now) ≡ true) }
    ensures err { IfErr result (λ fault. (fault ≡ Memory) ⊎ ((fault ≡ TooLarge) × (has_fitting_instance rule.now.theorem (replacements_of found.now) ≡ false))) }
{
    let _conclusion = recorder.thm(rule).concl();
    let _type = term.ty();
    let made = instance_known(recorder, &found.types, &found.terms, rule)?;
    within_limits(recorder.thm(&made));
    Ok(made)
}

// The left sides of rules.
ghost use Rattle.std.specs.Prelude.{◌≡◌, ◌++◌, ◌∷◌, [], IfOk, IfErr, OnOk};
ghost use Rattle.hol_model.specs.declared.fault.Fault.TheVariants.{Memory};
ghost use Rattle.hol_model.specs.Rewrites.Rewriting as rewriting;
ghost use Rattle.hol_rewrite.specs.RuleSides.{side_of_rule, sides_of_rules};
ghost use Rattle.hol_rewrite.specs.RuleSides as spec;

use crate::choice::Choice;
use hol_equal::equality::equation_parts;
use hol_journal::Rec;
use hol_model::Fault;
use hol_terms::{Term, frees};
use std::alloc::Global;

/// The choice among the left sides of rules, which are equations. The free variables of a rule's hypotheses stay.
pub fn choice_of(alloc: Global, rules: &[Rec]) -> Result<Choice, Fault>
    ensures ok { IfOk result (λ choice. choice ≡ sides_of_rules rules.now) }
    ensures err { IfErr result (λ fault. fault ≡ Memory) }
{
    let mut choice = Choice::new(alloc)?;
    for rule in rules {
        add_rule(alloc, &mut choice, rule)?;
    }
    Ok(choice)
}

// Puts the left side of a rule behind the others.
fn add_rule(alloc: Global, choice: &mut Choice, rule: &Rec) -> Result<(), Fault>
    ensures ok { OnOk result (choice.new ≡ choice.old ++ side_of_rule rule.now.theorem ∷ []) }
    ensures err { IfErr result (λ fault. fault ≡ Memory) }
{
    let rule = rule.theorem();
    let fixed = fixed_variables(alloc, rule.hyps())?;
    choice.add(alloc, fixed, left_side(rule.concl()))
}

// The left side of an equation.
fn left_side(conclusion: &Term) -> &Term
    ensures { result.now ≡ spec.left_side conclusion.now }
{
    match equation_parts(conclusion) {
        Some(parts) => parts.left,
        None => conclusion,
    }
}

// The free variables of hypotheses.
#[tactic(auto, using(crate::proofs::FixedVariables::fixing))]
fn fixed_variables(alloc: Global, hypotheses: &[Term]) -> Result<Vec<Term>, Fault>
    ensures ok { IfOk result (λ fixed. fixed.items ≡ rewriting.fixed_variables hypotheses.now) }
    ensures err { IfErr result (λ fault. fault ≡ Memory) }
{
    let mut fixed = Vec::new(alloc);
    for hypothesis in hypotheses {
        let mut variables = frees(alloc, hypothesis)?;
        fixed.append(&mut variables)?;
    }
    Ok(fixed)
}

// Sequents in a model.
ghost use Rattle.std.specs.Prelude.{◌≡◌, ◌↔◌, IfOk, IsTrue};
ghost use Rattle.hol_model.specs.Models.Holds.{AllTrue};
ghost use Rattle.hol_model.specs.Models.Models as models;
ghost use Rattle.hol_model.specs.Models.Values.{truth};
ghost use Rattle.hol_model_evaluator.specs.Trees.{nameless, nameless_terms, theory_of};
ghost use Rattle.hol_model_evaluator.specs.Interpretations.{model_of};
ghost use Rattle.hol_model_evaluator.specs.Sequents.{HoldsIn};

use crate::element::same;
use crate::interpretation::Interpretation;
use crate::meanings::term_meaning;
use crate::table::truth_of;
use crate::tree::{EntryTree, TermTree};
use std::alloc::{AllocError, Global};

// Whether a term is true in the model.
fn is_true(
    alloc: Global,
    theory: &[EntryTree<'_>],
    model: &Interpretation<'_>,
    term: &TermTree<'_>,
) -> Result<bool, AllocError>
    ensures { IfOk result (λ answer. IsTrue answer ↔ (models.term_meaning (theory_of theory.now) (model_of model.now) (nameless term.now) ≡ truth)) }
{
    let element = term_meaning(alloc, theory, model, term)?;
    let yes = truth_of(alloc, true)?;
    Ok(same(&element, &yes))
}

// Whether all of the terms are true in the model.
fn are_true(
    alloc: Global,
    theory: &[EntryTree<'_>],
    model: &Interpretation<'_>,
    terms: &[TermTree<'_>],
) -> Result<bool, AllocError>
    ensures { IfOk result (λ answer. IsTrue answer ↔ AllTrue (theory_of theory.now) (model_of model.now) (nameless_terms terms.now)) }
{
    match terms {
        [] => Ok(true),
        [first, rest @ ..] => {
            if is_true(alloc, theory, model, first)? {
                are_true(alloc, theory, model, rest)
            } else {
                Ok(false)
            }
        }
    }
}

/// Whether the conclusion is true in the model where the hypotheses are.
pub fn holds_in(
    alloc: Global,
    theory: &[EntryTree<'_>],
    model: &Interpretation<'_>,
    hypotheses: &[TermTree<'_>],
    conclusion: &TermTree<'_>,
) -> Result<bool, AllocError>
    ensures { IfOk result (λ answer. IsTrue answer ↔ HoldsIn (theory_of theory.now) (model_of model.now) (nameless_terms hypotheses.now) (nameless conclusion.now)) }
{
    let are_hypotheses_true = are_true(alloc, theory, model, hypotheses)?;
    if !are_hypotheses_true {
        return Ok(true);
    }
    let is_conclusion_true = is_true(alloc, theory, model, conclusion)?;
    Ok(is_conclusion_true)
}

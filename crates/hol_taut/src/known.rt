// The value of a formula, where the facts of its atoms tell it.
ghost use Rattle.std.specs.Prelude.{◌≡◌};
ghost use Rattle.hol_model.specs.Propositional.Propositions.{proposition};
ghost use Rattle.hol_taut_formulas.specs.Forms.{meant};
ghost use Rattle.hol_taut.specs.FactLists.{value_of, known_by, known_table};

use crate::facts::{Facts, fact_of};
use hol_taut_formulas::{Connective, Form, form_of};
use hol_terms::Term;

/// The value of a formula, where the facts tell it.
pub(crate) fn known_value(term: &Term, facts: &Facts<'_>) -> Option<bool>
    ensures { result ≡ known_by (value_of facts.now) (proposition term.now) }
{
    match form_of(term) {
        Form::Atom => match fact_of(&*facts, term) {
            Some(known) => Some(known.value),
            None => None,
        },
        Form::Constantly(value) => Some(value),
        Form::Negated(part) => match known_value(part, &*facts) {
            Some(value) => Some(!value),
            None => None,
        },
        Form::Connected(connective, left, right) => {
            let left = known_value(left, &*facts);
            let right = known_value(right, &*facts);
            connected_value(connective, left, right)
        }
    }
}

// The value of a connective, where the values of its sides tell it.
fn connected_value(connective: Connective, left: Option<bool>, right: Option<bool>) -> Option<bool>
    ensures { result ≡ known_table (meant connective) left right }
{
    match connective {
        Connective::And => match (left, right) {
            (Some(false), _) => Some(false),
            (Some(true), right) => right,
            (None, Some(false)) => Some(false),
            (None, _) => None,
        },
        Connective::Or => match (left, right) {
            (Some(true), _) => Some(true),
            (Some(false), right) => right,
            (None, Some(true)) => Some(true),
            (None, _) => None,
        },
        Connective::Implies => match (left, right) {
            (Some(false), _) => Some(true),
            (Some(true), right) => right,
            (None, Some(true)) => Some(true),
            (None, _) => None,
        },
        Connective::Iff => match (left, right) {
            (Some(left), Some(right)) => Some(left == right),
            _ => None,
        },
    }
}

// Whether a variable is free in a term.
ghost use Rattle.std.specs.Prelude.{◌≡◌, ◌<◌, ℕ, List, Some, slice_get, length, IfOk, IfErr};
ghost use Rattle.hol_model.specs.declared.fault.Fault.TheVariants.{Memory};
ghost use Rattle.hol_model.specs.Terms.HolType.{HolType};
ghost use Rattle.hol_model.specs.Terms.Nameless.{free};
ghost use Rattle.hol_model.specs.Terms.Substitution as substitution;
ghost use Rattle.hol_check_terms.specs.Terms.{term_at};
ghost use Rattle.hol_check_terms.specs.Occurs.{AreAbsent, IsSearched};

use crate::numbers::{is_noted, note};
use crate::terms::{TermShape, Terms};
use hol_model::Fault;
use indexmap::IndexSet;

/// Whether a variable is free in a term. Each part is gone through once.
pub fn occurs_free(terms: &Terms, variable: usize, number: usize) -> Result<bool, Fault>
    requires number { number < length terms.now.terms }
    ensures found { (name : List ℕ) (ty : HolType) → slice_get terms.now.terms variable ≡ Some (free name ty)
        → IfOk result (λ occurs. occurs ≡ substitution.occurs_free name ty (term_at terms.now.terms number)) }
    ensures refused { IfErr result (λ fault. fault ≡ Memory) }
{
    let mut absent = IndexSet::new(terms.alloc());
    occurs_in(terms, &mut absent, variable, number)
}

// Whether a variable is free in a part, where it is absent from the noted parts.
fn occurs_in(
    terms: &Terms,
    absent: &mut IndexSet<usize>,
    variable: usize,
    number: usize,
) -> Result<bool, Fault>
    requires number { number < length terms.now.terms }
    ensures found { (name : List ℕ) (ty : HolType) → slice_get terms.now.terms variable ≡ Some (free name ty) → AreAbsent terms.now.terms name ty absent.old.keys
        → IsSearched name ty (term_at terms.now.terms number) result terms.now.terms absent.new.keys }
    ensures refused { IfErr result (λ fault. fault ≡ Memory) }
{
    terms.have_one_number();
    if number == variable {
        return Ok(true);
    }
    if terms.has_no_free(number) {
        return Ok(false);
    }
    if is_noted(absent, number) {
        return Ok(false);
    }
    match terms.shape(number) {
        TermShape::Free(_name, _ty) => Ok(false),
        TermShape::Constant(_name, _ty) => Ok(false),
        TermShape::Bound(_index) => Ok(false),
        TermShape::Application(function, argument) => {
            let in_function = occurs_in(terms, absent, variable, function)?;
            if in_function {
                return Ok(true);
            }
            let in_argument = occurs_in(terms, absent, variable, argument)?;
            note(absent, number, in_argument, false)
        }
        TermShape::Abstraction(_ty, body) => {
            let in_body = occurs_in(terms, absent, variable, body)?;
            note(absent, number, in_body, false)
        }
    }
}

// Instances of lemmas over a predicate `P` and an element `x`, or a formula `q`.
ghost use Rattle.std.specs.Prelude.{◌≡◌, ◌∷◌, List, [], true, Some, IfOk, IfErr};
ghost use Rattle.hol_model.specs.declared.fault.Fault.TheVariants.{Memory};
ghost use Rattle.hol_model.specs.Terms.HolType.{HolType, bool_type};
ghost use Rattle.hol_model.specs.Logic.Logic.{predicate};
ghost use Rattle.hol_model.specs.Terms.NamedTerm.{variable, type_of};
ghost use Rattle.hol_model.specs.Terms.Nameless.{Nameless, image};
ghost use Rattle.hol_model.specs.Terms.Name.{is_identifier};
ghost use Rattle.hol_model.specs.Logic.Theory.{IsKnown, type_a};
ghost use Rattle.hol_journal.specs.Journal.{IsMade};
ghost use Rattle.hol_equal.specs.Formulas.{IsFormula};
ghost use Rattle.hol_journal.specs.Growth.{Continues};
ghost use Rattle.hol_equal.specs.Sequents.{Shows, DerivesIf};
ghost use Rattle.hol_quant.specs.PredicateLemmas.{PredicateFits, at_predicate, lemma_fits, FormulaFits, at_formula, formula_lemma_fits};

use hol_bool::formula_pair;
use hol_equal::{Made, by_fitting_lemma};
use hol_journal::{Rec, Recorder};
use hol_model::Fault;
use hol_terms::Term;
use hol_types::Ty;
use std::alloc::Global;

// The type of the element, for the type variable `A`.
fn type_pair(alloc: Global, element: &Term) -> Result<(Ty, Ty), Fault>
    ensures ok { IfOk result (λ pair. (ty : HolType) → type_of element.now ≡ Some ty → pair ≡ (ty, type_a)) }
    ensures err { IfErr result (λ fault. fault ≡ Memory) }
{
    let new = element.type_of(alloc)?;
    let old = Ty::tyvar(alloc, "A")?;
    Ok((new, old))
}

// The term, for the variable of this name and of its type.
fn variable_pair(alloc: Global, term: &Term, name: &str) -> Result<(Term, Term), Fault>
    requires { is_identifier name.now ≡ true }
    ensures ok { IfOk result (λ pair. (ty : HolType) → type_of term.now ≡ Some ty → pair ≡ (term.now, variable name.now ty)) }
    ensures err { IfErr result (λ fault. fault ≡ Memory) }
{
    let new = term.copy(alloc)?;
    let old = Term::mk_var(alloc, name, term.ty())?;
    Ok((new, old))
}

// From the lemma's hypothesis at a predicate for `P` and an element for `x`, its conclusion there. The theory knows both, which
// are not walked for it, and the premise fits, and is not compared with the hypothesis.
pub(crate) fn by_predicate_lemma(
    recorder: &mut Recorder,
    lemma: &Rec,
    function: &Term,
    element: &Term,
    premise: &Rec,
) -> Made
    requires lemma { IsMade recorder.old lemma.now }
    requires premise { IsMade recorder.old premise.now }
    requires fits { PredicateFits recorder.old.theory function.now element.now lemma.now.theorem premise.now.theorem }
    ensures continues { Continues recorder.old recorder.new result }
    ensures derives { (ty : HolType) → IsKnown recorder.old.theory (image function.now) (predicate ty)
        → IsKnown recorder.old.theory (image element.now) ty → (h : List Nameless) (p q : Nameless) → Shows lemma.now.theorem (p ∷ []) q
        → Shows premise.now.theorem h (at_predicate ty function.now element.now p)
        → DerivesIf (lemma_fits ty function.now element.now p q) result h (at_predicate ty function.now element.now q) }
{
    let alloc = recorder.alloc();
    let of_type = type_pair(alloc, element)?;
    let of_predicate = variable_pair(alloc, function, "P")?;
    let of_element = variable_pair(alloc, element, "x")?;
    let types = [of_type];
    let terms = [of_predicate, of_element];
    by_fitting_lemma(recorder, &types, &terms, lemma, premise)
}

// From the lemma's hypothesis at a predicate for `P`, on the type of an element, and a formula for `q`, its conclusion
// there. The theory knows them, which are not walked for it, and the premise fits, and is not compared with the hypothesis.
pub(crate) fn by_formula_lemma(
    recorder: &mut Recorder,
    lemma: &Rec,
    function: &Term,
    element: &Term,
    formula: &Term,
    premise: &Rec,
) -> Made
    requires lemma { IsMade recorder.old lemma.now }
    requires premise { IsMade recorder.old premise.now }
    requires formula { IsFormula recorder.old.theory formula.now }
    requires fits { FormulaFits recorder.old.theory function.now element.now formula.now lemma.now.theorem premise.now.theorem }
    ensures continues { Continues recorder.old recorder.new result }
    ensures derives { (ty : HolType) → IsKnown recorder.old.theory (image function.now) (predicate ty)
        → IsKnown recorder.old.theory (image element.now) ty → IsFormula recorder.old.theory formula.now → (h : List Nameless) (p q : Nameless)
        → Shows lemma.now.theorem (p ∷ []) q → Shows premise.now.theorem h (at_formula ty function.now formula.now p)
        → DerivesIf (formula_lemma_fits ty function.now formula.now p q) result h (at_formula ty function.now formula.now q) }
{
    let alloc = recorder.alloc();
    let of_type = type_pair(alloc, element)?;
    let of_predicate = variable_pair(alloc, function, "P")?;
    let of_formula = formula_pair(alloc, formula, "q")?;
    let types = [of_type];
    let terms = [of_predicate, of_formula];
    by_fitting_lemma(recorder, &types, &terms, lemma, premise)
}

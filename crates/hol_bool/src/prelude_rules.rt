// Steps by the theorems of the prelude.
ghost use Rattle.std.specs.Prelude.{◌≡◌, ◌<◌, ◌⊎◌, [], ◌∷◌, IfOk, IfErr, OnOk, IfSome, Some, None, false, length};
ghost use Rattle.std.specs.Option.{option_map};
ghost use Rattle.hol_model.specs.declared.fault.Fault.TheVariants.{Memory};
ghost use Rattle.hol_model.specs.Logic.Theory.{IsLegal, generic_type};
ghost use Rattle.hol_model.specs.Logic.Logic.{logical_definitions, binary};
ghost use Rattle.hol_model.specs.Logic.NamedLogic.{dest_connected, dest_negation};
ghost use Rattle.hol_model.specs.Terms.Nameless.{Nameless, image};
ghost use Rattle.hol_model.specs.Kernel.Rules.{first_unknown};
ghost use Rattle.hol_journal.specs.Journal.{IsMade};
ghost use Rattle.hol_prelude.specs.Prelude.{prelude_theorems};
ghost use Rattle.hol_prelude.specs.HasLogic.{HasLogic};
ghost use Rattle.hol_equal.specs.Formulas.{IsFormula, AreSides, IsNegated, IsPassed, IsRefused};
ghost use Rattle.hol_equal.specs.Room.{Room};
ghost use Rattle.hol_journal.specs.Growth.{Continues};
ghost use Rattle.hol_equal.specs.Sequents.{DerivesIf};
ghost use Rattle.hol_bool.specs.PreludeInstances.{LeadsTo, Concludes, Says, TheoremDerives};

use crate::formula_terms::{Sides, connected_sides, negated_part};
use hol_equal::{Made, by_fitting_lemma, conclusion_of, instance_known, named_same};
use hol_journal::{Rec, Recorder};
use hol_model::Fault;
use hol_prelude::{Bool, theorem_of};
use hol_terms::Term;

/// From the hypothesis of a theorem of the prelude at these terms, its conclusion there with these names, in three steps,
/// and two more where a variable is bound in it. A proof shows that the theorem leads from the premise to what is stated:
/// neither is compared with the theorem at the terms.
pub(crate) fn by_leading_theorem(
    recorder: &mut Recorder,
    logic: &Bool,
    number: usize,
    terms: &[(Term, Term)],
    stated: &Term,
    premise: &Rec,
) -> Made
    requires logic { HasLogic recorder.old logic.now }
    requires number { number < length prelude_theorems }
    requires premise { IsMade recorder.old premise.now }
    requires stated { IsFormula recorder.old.theory stated.now }
    requires leads { LeadsTo recorder.old.theory number terms.now false (image premise.now.theorem.conclusion) (image stated.now) }
    ensures continues { Continues recorder.old recorder.new result }
    ensures names { IfOk result (λ made. made.theorem.conclusion ≡ stated.now) }
    ensures derives { TheoremDerives recorder.old.theory number terms.now stated.now premise.now.theorem result }
{
    let lemma = theorem_of(recorder, logic, number);
    let answer = by_fitting_lemma(recorder, &[], terms, lemma, premise)?;
    named_same(recorder, stated, &answer)
}

/// A theorem of the prelude at these terms, whose conclusion there has these names, in one step, and two more where a variable is
/// bound in it. Its hypothesis is kept, where it has one. A proof shows what is stated, so that nothing is compared.
pub(crate) fn instance_of_theorem(
    recorder: &mut Recorder,
    logic: &Bool,
    number: usize,
    terms: &[(Term, Term)],
    stated: &Term,
) -> Made
    requires logic { HasLogic recorder.old logic.now }
    requires number { number < length prelude_theorems }
    requires stated { IsFormula recorder.old.theory stated.now }
    requires concludes { Concludes recorder.old.theory number terms.now (image stated.now) }
    ensures continues { Continues recorder.old recorder.new result }
    ensures names { IfOk result (λ made. made.theorem.conclusion ≡ stated.now) }
    ensures derives { (premise : Nameless) (room : Room) → LeadsTo recorder.old.theory number terms.now room premise (image stated.now)
        → DerivesIf room result (premise ∷ []) (image stated.now) }
    ensures says { (room : Room) → Says recorder.old.theory number terms.now room (image stated.now) → DerivesIf room result [] (image stated.now) }
{
    let lemma = theorem_of(recorder, logic, number);
    let answer = instance_known(recorder, &[], terms, lemma)?;
    named_same(recorder, stated, &answer)
}

/// The sides of a conclusion with the binary connective of this name.
pub(crate) fn sides_of<'a>(
    recorder: &Recorder,
    _logic: &Bool,
    premise: &'a Rec,
    name: &str,
) -> Option<Sides<'a>>
    requires logic { HasLogic recorder.now _logic.now }
    requires name { generic_type logical_definitions name.now ≡ Some binary }
    requires premise { IsMade recorder.now premise.now }
    ensures sides { option_map (λ sides. (sides.left.now, sides.right.now)) result ≡ dest_connected name.now premise.now.theorem.conclusion }
    ensures formula { IsFormula recorder.now.theory premise.now.theorem.conclusion }
    ensures legal { IsLegal recorder.now.theory }
    ensures parts { IfSome result (λ sides. AreSides recorder.now.theory name.now premise.now.theorem.conclusion sides.left.now sides.right.now) }
{
    recorder.theory_is_legal();
    connected_sides(conclusion_of(recorder, premise), name)
}

/// The formula under the negation that a conclusion is.
pub(crate) fn negated_of<'a>(
    recorder: &Recorder,
    _logic: &Bool,
    premise: &'a Rec,
) -> Option<&'a Term>
    requires logic { HasLogic recorder.now _logic.now }
    requires premise { IsMade recorder.now premise.now }
    ensures found { option_map (λ part. part.now) result ≡ dest_negation premise.now.theorem.conclusion }
    ensures formula { IsFormula recorder.now.theory premise.now.theorem.conclusion }
    ensures legal { IsLegal recorder.now.theory }
    ensures part { IfSome result (λ part. IsNegated recorder.now.theory premise.now.theorem.conclusion part.now) }
{
    negated_part(conclusion_of(recorder, premise))
}

/// Walks a term that comes in: the theory is to know its types and constants.
pub fn pass_known(recorder: &Recorder, term: &Term) -> Result<(), Fault>
    ensures ok { OnOk result (first_unknown recorder.now.theory term.now ≡ None) }
    ensures err { IfErr result (λ fault. (fault ≡ Memory) ⊎ (first_unknown recorder.now.theory term.now ≡ Some fault)) }
{
    match recorder.theory().first_unknown(term) {
        Some(fault) => Err(fault),
        None => Ok(()),
    }
}

/// Walks a term that comes in: it is to be a formula that the theory knows.
pub fn pass_formula(recorder: &Recorder, term: &Term) -> Result<(), Fault>
    ensures ok { OnOk result (IsPassed recorder.now.theory term.now) }
    ensures err { IfErr result (IsRefused recorder.now.theory term.now) }
{
    if !term.ty().is_bool() {
        return Err(Fault::NotBool);
    }
    pass_known(recorder, term)
}

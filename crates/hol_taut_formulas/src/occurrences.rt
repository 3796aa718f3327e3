// The atoms of a formula.
ghost use Rattle.std.specs.Prelude.{◌≡◌, IfErr, OnOk};
ghost use Rattle.std.specs.List.{list_any};
ghost use Rattle.hol_model.specs.declared.fault.Fault.TheVariants.{Memory};
ghost use Rattle.hol_model.specs.Kernel.Outcome.{Answers};
ghost use Rattle.hol_model.specs.Propositional.Propositions.{proposition, atom_places, atoms_outcome, terms_in, with_new_terms};
ghost use Rattle.hol_model.specs.Kernel.Theorem.{are_alpha_equivalent};

use crate::form::{Form, form_of};
use hol_alpha::aconv;
use hol_model::Fault;
use hol_terms::Term;
use std::alloc::Global;

/// The atoms of a formula, in order of first occurrence, each once up to the names of bound variables.
pub fn atoms(alloc: Global, term: &Term) -> Result<Vec<Term>, Fault>
    ensures { Answers (terms_in result) (atoms_outcome term.now) }
{
    if !term.ty().is_bool() {
        return Err(Fault::NotBool);
    }
    let mut seen = Vec::new(alloc);
    match add_atoms(alloc, term, &mut seen) {
        Ok(()) => Ok(seen),
        Err(fault) => Err(fault),
    }
}

// Puts the atoms of a formula that are not yet in a list at its end.
#[tactic(auto, using(crate::proofs::NewTerms::adding_terms))]
fn add_atoms(alloc: Global, term: &Term, seen: &mut Vec<Term>) -> Result<(), Fault>
    ensures ok { OnOk result (seen.new.items ≡ with_new_terms seen.old.items (atom_places (proposition term.now))) }
    ensures err { IfErr result (λ fault. fault ≡ Memory) }
{
    match form_of(term) {
        Form::Atom => {
            if is_among(term, seen) {
                return Ok(());
            }
            seen.push(term.copy(alloc)?)?;
            Ok(())
        }
        Form::Constantly(_) => Ok(()),
        Form::Negated(part) => add_atoms(alloc, part, seen),
        Form::Connected(_, left, right) => {
            add_atoms(alloc, left, seen)?;
            add_atoms(alloc, right, seen)
        }
    }
}

// Whether the term is one of a list, up to the names of bound variables.
fn is_among(term: &Term, terms: &[Term]) -> bool
    ensures { result ≡ list_any (are_alpha_equivalent term.now) terms.now }
{
    terms.iter().any(|other| aconv(term, other))
}

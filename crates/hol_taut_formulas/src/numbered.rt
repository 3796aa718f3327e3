// Formulas as lists of parts that name atoms and parts by numbers, so that each row asks no more than their values.
ghost use Rattle.std.specs.Prelude.{◌≡◌, ◌∷◌, [], ℕ, List, Bool, position, IfOk, IfErr, IsTrue};
ghost use Rattle.hol_model.specs.declared.fault.Fault.TheVariants.{Memory};
ghost use Rattle.hol_model.specs.Kernel.Theorem.{are_alpha_equivalent};
ghost use Rattle.hol_model.specs.Propositional.Propositions.{proposition, atom_places};
ghost use Rattle.hol_taut_formulas.specs.AddedAtoms.{AreRefused, IsAtomPut};
ghost use Rattle.hol_taut_formulas.specs.NumberedFormulas.{truth_of_part, is_true_at};
ghost use Rattle.hol_taut_formulas.specs.PutParts.{IsPartPut, IsFormulaPut, IsNumbered};

use crate::Connective;
use crate::form::{Form, form_of};
use hol_alpha::aconv;
use hol_model::{ATOMS_LIMIT, Fault};
use hol_terms::Term;
use indexmap::IndexSet;
use std::alloc::Global;

/// A formula by the places of the atoms and of the parts that it is made of.
#[derive(Clone, Copy, PartialEq, Eq, Hash)]
pub enum Part {
    Atom(usize),
    Constantly(bool),
    Negated(usize),
    Connected(Connective, usize, usize),
}

/// A formula as its parts, each once and behind those that it is made of. The whole is one of them.
#[derive(Drop)]
pub(crate) struct Numbered {
    pub(crate) parts: IndexSet<Part>,
    pub(crate) whole: usize,
}

impl Numbered {
    /// Whether the formula says of a part that it implies or equals itself, so that it is true in each row.
    pub(crate) fn holds_of_itself(&self) -> bool
        ensures { IsTrue result → (row : List Bool) → IsTrue (is_true_at row self.now) }
    {
        match self.parts.as_slice().get(self.whole) {
            Some(part) => is_reflexive(*part),
            None => false,
        }
    }
}

// Whether this part says of another that it implies or equals itself.
fn is_reflexive(part: Part) -> bool
    ensures { IsTrue result → (value : ℕ → Bool) → (before : List Bool) → IsTrue (truth_of_part value before part) }
{
    match part {
        Part::Connected(Connective::Implies | Connective::Iff, left, right) => left == right,
        _ => false,
    }
}

/// A formula whose atoms are put behind those of a list, unless they are there. Refused where there would be too many, of which
/// those past the limit are not looked for.
pub(crate) fn numbered_formula(
    alloc: Global,
    term: &Term,
    atoms: &mut Vec<Term>,
) -> Result<Numbered, Fault>
    ensures ok { IfOk result (IsNumbered term.now atoms.old.items atoms.new.items) }
    ensures err { IfErr result (AreRefused (atom_places (proposition term.now)) atoms.old.items) }
{
    let mut parts = IndexSet::new(alloc);
    let whole = put_formula(alloc, term, atoms, &mut parts)?;
    Ok(Numbered { parts, whole })
}

// Puts the atoms and the parts of a formula that are not yet there, and answers the place of the whole.
fn put_formula(
    alloc: Global,
    term: &Term,
    atoms: &mut Vec<Term>,
    parts: &mut IndexSet<Part>,
) -> Result<usize, Fault>
    ensures ok { IfOk result (IsFormulaPut term.now atoms.old.items atoms.new.items parts.old.keys parts.new.keys) }
    ensures err { IfErr result (AreRefused (atom_places (proposition term.now)) atoms.old.items) }
{
    match form_of(term) {
        Form::Atom => {
            let place = put_atom(alloc, term, atoms)?;
            put_part(Part::Atom(place), parts)
        }
        Form::Constantly(value) => put_part(Part::Constantly(value), parts),
        Form::Negated(part) => {
            let part = put_formula(alloc, part, atoms, parts)?;
            put_part(Part::Negated(part), parts)
        }
        Form::Connected(connective, left, right) => {
            let left = put_formula(alloc, left, atoms, parts)?;
            let right = put_formula(alloc, right, atoms, parts)?;
            put_part(Part::Connected(connective, left, right), parts)
        }
    }
}

// Puts a part, unless it is there, and answers its place.
fn put_part(part: Part, parts: &mut IndexSet<Part>) -> Result<usize, Fault>
    ensures ok { IfOk result (IsPartPut part parts.old.keys parts.new.keys) }
    ensures err { IfErr result (λ fault. fault ≡ Memory) }
{
    let (place, _) = parts.insert_full(part)?;
    Ok(place)
}

/// Puts an atom, unless it is there or there would be too many, and answers its place.
pub(crate) fn put_atom(alloc: Global, atom: &Term, atoms: &mut Vec<Term>) -> Result<usize, Fault>
    ensures ok { IfOk result (IsAtomPut atom.now atoms.old.items atoms.new.items) }
    ensures err { IfErr result (AreRefused (atom.now ∷ []) atoms.old.items) }
{
    if let Some(place) = place_of(atom, atoms) {
        return Ok(place);
    }
    let place = atoms.len();
    if place >= ATOMS_LIMIT {
        return Err(Fault::TooManyAtoms);
    }
    atoms.push(atom.copy(alloc)?)?;
    Ok(place)
}

// The place of the first of the atoms that a term is.
fn place_of(term: &Term, atoms: &[Term]) -> Option<usize>
    ensures { result ≡ position (λ atom. are_alpha_equivalent atom term.now) atoms.now }
{
    atoms.iter().position(|atom| aconv(atom, term))
}

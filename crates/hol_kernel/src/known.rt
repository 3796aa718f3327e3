// Which types and terms a theory knows.
ghost use Rattle.std.specs.Prelude.{◌≡◌};
ghost use Rattle.hol_model.specs.Logic.KnownTerm as spec;
ghost use Rattle.hol_model.specs.Kernel.Rules as rules;

use crate::theory::Theory;
use hol_model::Fault;
use hol_terms::{Parts, Term};
use hol_types::{Ty, TypeParts, is_instance};

impl Theory {
    /// The refusal for a term that the theory does not know: UnknownType where a type in it was not declared, UnknownConst
    /// where a constant is not there, NotInstance where one has a type that is no instance of its generic type. `None` for a
    /// term that is known, after one walk.
    pub fn first_unknown(&self, term: &Term) -> Option<Fault>
        ensures { result ≡ rules.first_unknown self.now term.now }
    {
        if is_known(term, self) {
            None
        } else if !knows_types(term, self) {
            Some(Fault::UnknownType)
        } else if !knows_constants(term, self) {
            Some(Fault::UnknownConst)
        } else {
            Some(Fault::NotInstance)
        }
    }

    /// Whether each type in a term is known, and each constant there at an instance of its generic type.
    pub fn known(&self, term: &Term) -> bool
        ensures { result ≡ spec.is_known self.now term.now }
    {
        is_known(term, self)
    }
}

/// Whether each type in a term is known, and each constant there at an instance of its generic type: in one walk.
pub fn is_known(term: &Term, theory: &Theory) -> bool
    ensures { result ≡ spec.is_known theory.now term.now }
{
    match term.parts() {
        Parts::Variable(_, ty) => knows_type(ty, theory),
        Parts::Constant(name, ty) => match theory.const_type(name) {
            Some(generic) => is_instance(generic, ty) && knows_type(ty, theory),
            None => false,
        },
        Parts::Combination(function, argument) => is_known(function, theory)
            && is_known(argument, theory),
        Parts::Abstraction(_, ty, body) => knows_type(ty, theory) && is_known(body, theory),
    }
}

/// Whether each declared type in a type is known.
pub fn knows_type(ty: &Ty, theory: &Theory) -> bool
    ensures { result ≡ spec.knows_type theory.now ty.now }
{
    match ty.parts() {
        TypeParts::Variable(_) | TypeParts::Bool => true,
        TypeParts::Function(domain, codomain) => knows_type(domain, theory)
            && knows_type(codomain, theory),
        TypeParts::Declared(name) => theory.is_declared(name),
    }
}

/// Whether each type in a term is known.
pub fn knows_types(term: &Term, theory: &Theory) -> bool
    ensures { result ≡ spec.knows_types theory.now term.now }
{
    match term.parts() {
        Parts::Variable(_, ty) | Parts::Constant(_, ty) => knows_type(ty, theory),
        Parts::Combination(function, argument) => knows_types(function, theory)
            && knows_types(argument, theory),
        Parts::Abstraction(_, ty, body) => knows_type(ty, theory) && knows_types(body, theory),
    }
}

/// Whether each constant in a term is there.
pub fn knows_constants(term: &Term, theory: &Theory) -> bool
    ensures { result ≡ spec.knows_constants theory.now term.now }
{
    match term.parts() {
        Parts::Variable(_, _) => true,
        Parts::Constant(name, _) => theory.const_type(name).is_some(),
        Parts::Combination(function, argument) => knows_constants(function, theory)
            && knows_constants(argument, theory),
        Parts::Abstraction(_, _, body) => knows_constants(body, theory),
    }
}

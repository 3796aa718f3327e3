// Whether a scope knows the names of a type, and of a term.
ghost use Rattle.std.specs.Prelude.{◌≡◌, Ok, IsTrue};
ghost use Rattle.hol_model.specs.Terms.Name.{is_constant_name};
ghost use Rattle.hol_model.specs.Terms.NamedTerm.{constant};
ghost use Rattle.hol_model.specs.Texts.Reading.{known_constant};
ghost use Rattle.hol_model.specs.Texts.Texts.{IsNamedType, IsKnownTerm};
ghost use Rattle.hol_syntax.specs.Scope.{scope_of};

use hol_syntax::Scope;
use hol_terms::{Parts, Term};
use hol_types::{Ty, TypeParts, is_instance};

/// Whether each declared type in the type is known.
pub(crate) fn knows_type(scope: &Scope, ty: &Ty) -> bool
    ensures { IsTrue result → IsNamedType (scope_of scope.now) ty.now }
{
    match ty.parts() {
        TypeParts::Variable(_) | TypeParts::Bool => true,
        TypeParts::Function(domain, codomain) => {
            knows_type(scope, domain) && knows_type(scope, codomain)
        }
        TypeParts::Declared(name) => scope.has_type(name),
    }
}

// Whether the constant is known, at an instance of its generic type.
fn knows_constant(scope: &Scope, name: &str, ty: &Ty) -> bool
    ensures { IsTrue result → IsTrue (is_constant_name name.now) → known_constant (scope_of scope.now) name.now ty.now ≡ Ok (constant name.now ty.now) }
{
    match scope.const_type(name) {
        Some(generic) => is_instance(generic, ty),
        None => false,
    }
}

/// Whether each constant and each declared type in the term is known.
pub(crate) fn knows_term(scope: &Scope, term: &Term) -> bool
    ensures { IsTrue result → IsKnownTerm (scope_of scope.now) term.now }
{
    match term.parts() {
        Parts::Variable(_, ty) => knows_type(scope, ty),
        Parts::Constant(name, ty) => knows_type(scope, ty) && knows_constant(scope, name, ty),
        Parts::Combination(function, argument) => {
            knows_term(scope, function) && knows_term(scope, argument)
        }
        Parts::Abstraction(_, ty, body) => knows_type(scope, ty) && knows_term(scope, body),
    }
}

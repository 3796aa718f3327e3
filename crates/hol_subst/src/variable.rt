// A variable, told by what it is made of.
ghost use Rattle.std.specs.Prelude.{◌≡◌};
ghost use Rattle.hol_model.specs.Terms.Substitution as spec;

use hol_terms::{Parts, Term, same_variable};
use hol_types::Ty;

/// The variable of this name and type.
#[derive(Clone, Copy)]
pub struct Variable<'a> {
    pub name: &'a str,
    pub ty: &'a Ty,
}

/// Whether a term is the variable of this name and type.
pub(crate) fn is_variable_named(name: &str, ty: &Ty, term: &Term) -> bool
    ensures { result ≡ spec.is_variable_named name.now ty.now term.now }
{
    match term.parts() {
        Parts::Variable(other, s) => same_variable(other, s, name, ty),
        _ => false,
    }
}

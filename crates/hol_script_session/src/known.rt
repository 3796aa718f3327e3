// Which types a theory knows.
ghost use Rattle.std.specs.Prelude.{◌≡◌};
ghost use Rattle.hol_model.specs.Logic.KnownTerm as spec;

use hol_kernel::Theory;
use hol_types::{Ty, TypeParts};

/// Whether each declared type in a type is known.
pub(crate) fn knows_type(theory: &Theory, ty: &Ty) -> bool
    ensures { result ≡ spec.knows_type theory.now ty.now }
{
    match ty.parts() {
        TypeParts::Variable(_) | TypeParts::Bool => true,
        TypeParts::Function(domain, codomain) => knows_type(theory, domain)
            && knows_type(theory, codomain),
        TypeParts::Declared(name) => theory.is_declared(name),
    }
}

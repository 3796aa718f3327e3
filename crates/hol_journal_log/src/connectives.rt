// The types of connectives.
ghost use Rattle.std.specs.Prelude.{◌≡◌, IsTrue};
ghost use Rattle.hol_model.specs.Logic.Logic.{unary, binary};

use hol_types::{Ty, TypeParts};

// Whether it is the type of connectives of one formula.
fn is_unary(ty: &Ty) -> bool
    ensures { IsTrue result → ty.now ≡ unary }
{
    match ty.parts() {
        TypeParts::Function(domain, codomain) => domain.is_bool() && codomain.is_bool(),
        _ => false,
    }
}

/// Whether it is the type of connectives of two formulas.
pub(crate) fn is_binary(ty: &Ty) -> bool
    ensures { IsTrue result → ty.now ≡ binary }
{
    match ty.parts() {
        TypeParts::Function(domain, codomain) => domain.is_bool() && is_unary(codomain),
        _ => false,
    }
}

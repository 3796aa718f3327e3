// Types as the checker shows them, made as types of the logic.
ghost use Rattle.std.specs.Prelude.{◌≡◌, IfOk};

use hol_check::{TypeParts, TypeView};
use hol_model::Fault;
use hol_types::Ty;
use std::alloc::Global;

/// The text of a name. Refusal: BadName, of bytes that are no text.
pub(crate) fn text_of_name(name: &[u8]) -> Result<&str, Fault>
    ensures { IfOk result (λ text. text.now ≡ name.now) }
{
    match str::from_utf8(name) {
        Ok(text) => Ok(text),
        Err(_) => Err(Fault::BadName),
    }
}

/// The type that is shown.
pub(crate) fn type_of(alloc: Global, view: &TypeView<'_>) -> Result<Ty, Fault>
    ensures { IfOk result (λ ty. ty ≡ view.now) }
{
    match view.parts() {
        TypeParts::Variable(name) => Ty::tyvar(alloc, text_of_name(name)?),
        TypeParts::Boolean => Ty::boolean(alloc),
        TypeParts::Function(domain, codomain) => {
            let domain = type_of(alloc, &domain)?;
            let codomain = type_of(alloc, &codomain)?;
            Ty::fun(alloc, &domain, &codomain)
        }
        TypeParts::Declared(name) => Ty::declared(alloc, text_of_name(name)?),
    }
}

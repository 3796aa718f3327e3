// The binder of an abstraction after the replacement.
ghost use Rattle.std.specs.Prelude.{◌≡◌, ◌<◌, [], ◌∷◌, IfOk, IfErr, IsTrue, Contains};
ghost use Rattle.hol_model.specs.Terms.HolType.{type_nodes, type_put};
ghost use Rattle.hol_model.specs.Terms.Name.{is_identifier};
ghost use Rattle.hol_model.specs.declared.fault.Fault.TheVariants.{Memory, TooLarge};
ghost use Rattle.hol_subst.specs.Binders.{IsBinderAfter};
ghost use Rattle.hol_subst.specs.Replacements.{entries_of};
ghost use Rattle.hol_subst.specs.VariableTypes.{HasVariables, known_table};

use crate::capture::captures;
use crate::fresh::fresh_binder;
use crate::known_variables::KnownVariables;
use crate::passed::Passed;
use crate::replacing::Replacing;
use crate::variable::Variable;
use crate::walks::Walks;
use hol_model::{Fault, TYPE_NODES_LIMIT};
use hol_terms::Term;
use hol_types::{Ty, replaced_type};
use std::alloc::Global;

/// The binder of an abstraction after the replacement.
#[derive(Drop)]
pub enum NewBinder {
    // It keeps its name, and has this type, or its own.
    Kept(Option<Ty>),
    // This variable, since the old one would capture.
    Renamed(Term),
}

/// What becomes of a binder over a body. The walks tell where a captured variable may stand in the body, and are told
/// where one was found, or how far none was.
pub(crate) fn new_binder<'a>(
    alloc: Global,
    name: &'a str,
    ty: &'a Ty,
    body: &Term,
    replacing: &Replacing<'_>,
    known: &KnownVariables<'_>,
    walks: &mut Walks,
) -> Result<NewBinder, Fault>
    requires named { IsTrue (is_identifier name.now) }
    requires known { HasVariables (known_table known.now) body.now }
    ensures ok { IfOk result (IsBinderAfter (entries_of replacing.now.replacements.now) replacing.now.types.now name.now ty.now body.now) }
    ensures too_large { result ≡ Err TooLarge → TYPE_NODES_LIMIT < type_nodes (type_put replacing.now.types.now ty.now) }
    ensures refusals { IfErr result (Contains (TooLarge ∷ Memory ∷ [])) }
{
    let changed_type = replaced_type(alloc, replacing.types, ty)?;
    let new_type = changed_type.as_ref().unwrap_or(ty);
    if !captures(name, ty, new_type, body, &*replacing, &*known, &mut *walks) {
        return Ok(NewBinder::Kept(changed_type));
    }
    let outermost = Passed::Outermost;
    let passed = Passed::Under(name, ty, &outermost);
    let captured = Variable { name, ty: new_type };
    let fresh = fresh_binder(
        alloc,
        body,
        captured,
        &passed,
        &*replacing,
        walks.hint,
        &*known,
    )?;
    Ok(NewBinder::Renamed(fresh))
}

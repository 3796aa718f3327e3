// What was worked out for parts of terms and for types.
ghost use Rattle.std.specs.Prelude.{◌≡◌, IfOk, IfErr};
ghost use Rattle.std.specs.Option.{IfSome};
ghost use Rattle.hol_model.specs.declared.fault.Fault.TheVariants.{Memory};
ghost use Rattle.hol_check_terms.specs.Entries.{IsEntry, HasOnlyAdded};

use hol_model::Fault;
use indexmap::IndexMap;

/// A part of a term under so many binders.
#[derive(Clone, Copy, PartialEq, Eq, Hash)]
pub struct Place {
    pub passed: usize,
    pub number: usize,
}

/// What was worked out for a part.
pub fn recall(parts: &IndexMap<Place, usize>, place: Place) -> Option<usize>
    ensures { IfSome result (λ new. IsEntry parts.now.entries place new) }
{
    let (_, found, new) = parts.get_full(&place)?;
    if *found == place { Some(*new) } else { None }
}

/// Notes what was worked out for a part, and hands it on.
pub fn remember(
    parts: &mut IndexMap<Place, usize>,
    place: Place,
    new: usize,
) -> Result<usize, Fault>
    ensures new { IfOk result (λ same. same ≡ new) }
    ensures refused { IfErr result (λ fault. fault ≡ Memory) }
    ensures added { HasOnlyAdded parts.old.entries parts.new.entries place new }
{
    parts.insert(place, new)?;
    Ok(new)
}

/// What was worked out for a type, or the type that was worked out for a term.
pub fn recall_type(types: &IndexMap<usize, usize>, ty: usize) -> Option<usize>
    ensures { IfSome result (λ new. IsEntry types.now.entries ty new) }
{
    let (_, found, new) = types.get_full(&ty)?;
    if *found == ty { Some(*new) } else { None }
}

/// Notes it, and hands it on.
pub fn remember_type(
    types: &mut IndexMap<usize, usize>,
    ty: usize,
    new: usize,
) -> Result<usize, Fault>
    ensures new { IfOk result (λ same. same ≡ new) }
    ensures refused { IfErr result (λ fault. fault ≡ Memory) }
    ensures added { HasOnlyAdded types.old.entries types.new.entries ty new }
{
    types.insert(ty, new)?;
    Ok(new)
}

// The numbers of parts that were made.
ghost use Rattle.std.specs.Prelude.{◌≡◌, IfOk, IfErr, OnOk, if◌then◌else◌};
ghost use Rattle.std.specs.Option.{IfSome};
ghost use Rattle.hol_model.specs.declared.fault.Fault.TheVariants.{Memory};
ghost use Rattle.hol_check_terms.specs.Entries.{IsEntry, HasOnlyAdded};
ghost use Rattle.hol_check_written.specs.Making.{HasEntry, Stays, IsKept};

use hol_check_terms::memo::recall_type;
use hol_model::Fault;
use indexmap::IndexMap;

/// The number of a line's term, among what was made for good or what was made under some binders.
pub(crate) fn recall(
    made: &IndexMap<usize, usize>,
    known: &IndexMap<usize, usize>,
    is_apart: bool,
    line: usize,
) -> Option<usize>
    ensures { IfSome result (λ number. IsEntry (if is_apart then made.now.entries else known.now.entries) line number) }
{
    if is_apart {
        recall_type(made, line)
    } else {
        recall_type(known, line)
    }
}

/// Notes the number of a line's term, and hands it on.
pub(crate) fn note(
    parts: &mut IndexMap<usize, usize>,
    line: usize,
    number: usize,
) -> Result<usize, Fault>
    ensures same { IfOk result (λ same. same ≡ number) }
    ensures refused { IfErr result (λ fault. fault ≡ Memory) }
    ensures added { HasOnlyAdded parts.old.entries parts.new.entries line number }
    ensures stays { Stays parts.old.entries parts.new.entries }
    ensures there { OnOk result (HasEntry parts.new.entries line) }
{
    parts.insert(line, number)?;
    Ok(number)
}

/// Notes the number of a line's term, for good where no binder's variable stands in it.
pub(crate) fn keep(
    made: &mut IndexMap<usize, usize>,
    known: &mut IndexMap<usize, usize>,
    is_apart: bool,
    line: usize,
    number: usize,
) -> Result<usize, Fault>
    ensures same { IfOk result (λ same. same ≡ number) }
    ensures refused { IfErr result (λ fault. fault ≡ Memory) }
    ensures kept { IsKept is_apart line (λ new. new ≡ number) made.old.entries made.new.entries known.old.entries known.new.entries }
{
    if is_apart {
        note(made, line, number)
    } else {
        note(known, line, number)
    }
}

// Numbers of parts that are noted while a term is gone through.
ghost use Rattle.std.specs.Prelude.{◌≡◌, IfOk, IfErr, IsTrue};
ghost use Rattle.hol_model.specs.declared.fault.Fault.TheVariants.{Memory};
ghost use Rattle.hol_check_terms.specs.Numbers.{IsNoted, IsNotedWhere};

use hol_model::Fault;
use indexmap::IndexSet;

/// Whether a number was noted.
pub(crate) fn is_noted(numbers: &IndexSet<usize>, number: usize) -> bool
    ensures { IsTrue result → IsNoted numbers.now.keys number }
{
    match numbers.get_full(&number) {
        Some((_, found)) => *found == number,
        None => false,
    }
}

/// Notes a number where an answer is the wanted one, and hands the answer on.
pub(crate) fn note(
    numbers: &mut IndexSet<usize>,
    number: usize,
    answer: bool,
    wanted: bool,
) -> Result<bool, Fault>
    ensures answer { IfOk result (λ same. same ≡ answer) }
    ensures refused { IfErr result (λ fault. fault ≡ Memory) }
    ensures noted { IsNotedWhere answer wanted number numbers.old.keys numbers.new.keys }
{
    if answer != wanted {
        return Ok(answer);
    }
    let (_, _) = numbers.insert_full(number)?;
    Ok(answer)
}

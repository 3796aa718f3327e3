// The theorems of names.
ghost use Rattle.std.specs.Prelude.{◌≡◌, Some, map, IfOk, IfErr, string_bytes};
ghost use Rattle.hol_model.specs.Refining.Refiners as refiners;
ghost use Rattle.hol_journal.specs.Journal.{Journal};
ghost use Rattle.hol_prelude_derivations.specs.Derivations.{AreMade, theorems};
ghost use Rattle.hol_theorem_store.specs.Stored.{IsStoreOf, theorems_in};
ghost use Rattle.hol_theorem_store.specs.Store.{stored_of};
ghost use Rattle.hol_refine.specs.Answers.{IsUnnamed};

use hol_journal::Rec;
use hol_model::Fault;
use hol_theorem_store::Store;
use std::alloc::Global;

/// The stored theorems of the names, in order. Refused: UnknownName where a name stands for none; Memory.
pub(crate) fn theorems_named(
    alloc: Global,
    store: &Store,
    names: &[String],
) -> Result<Vec<Rec>, Fault>
    ensures ok { IfOk result (λ all. refiners.theorems_named (theorems_in (stored_of store.now)) (map string_bytes names.now) ≡ Some (theorems all.items)) }
    ensures err { IfErr result (IsUnnamed (refiners.theorems_named (theorems_in (stored_of store.now)) (map string_bytes names.now))) }
    ensures made { (journal : Journal) → IsStoreOf journal (stored_of store.now) → IfOk result (λ all. AreMade journal all.items) }
{
    let mut all = Vec::new(alloc);
    for name in names {
        let theorem = match store.get(name.as_str()) {
            Some(theorem) => theorem,
            None => return Err(Fault::UnknownName),
        };
        all.push(theorem.copy(alloc)?)?;
    }
    Ok(all)
}

// What is true of each store.

ghost use Rattle.hol_theorem_store.specs.Stored.{StoresStay};

/// What a recorder made of a store stays its own as the journal grows. Nothing is computed: the clause is the law, for
/// callers' proofs.
pub fn stores_stay()
    ensures { StoresStay }
{
    hol_journal::journals_grow();
}

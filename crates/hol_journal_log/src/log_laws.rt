// What is true of each pruned log.

ghost use Rattle.hol_journal_log.specs.LogAccepted.{LogsAreAccepted};

/// The log of a journal, pruned to what its claims need, is accepted. Nothing is computed: the clause is the law, for
/// callers' proofs.
pub fn journal_logs_are_accepted()
    ensures { LogsAreAccepted }
{}

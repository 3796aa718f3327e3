// What is true of each journal.

ghost use Rattle.hol_journal.specs.Growth.{JournalsGrow};

/// A journal only grows, and what its recorder made stays its own, so that it may be handed in again. Nothing is
/// computed: the clause is the law, for callers' proofs.
pub fn journals_grow()
    ensures { JournalsGrow }
{}

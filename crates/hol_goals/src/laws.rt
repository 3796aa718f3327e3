// What is true of each stack.
ghost use Rattle.hol_goals.specs.Made.{KeptStayMade};

/// While what the recorder made stays its own, so do the theorems that a stack keeps. Nothing is computed: the clause is
/// the law, for callers' proofs.
pub fn kept_theorems_stay_made()
    ensures { KeptStayMade }
{}

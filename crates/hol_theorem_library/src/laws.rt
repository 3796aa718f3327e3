// What is true of each library.

ghost use Rattle.hol_theorem_library.specs.Library.{LibrariesContinue};

/// A library stays one as its journal grows. Nothing is computed: the clause is the law, for callers' proofs.
pub fn libraries_continue()
    ensures { LibrariesContinue }
{}

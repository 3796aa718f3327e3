// Theorems of formulas within the limits. Nothing is computed here: the clause is a law, for callers' proofs.
ghost use Rattle.hol_journal_log.specs.Pruning.{IsFitting};

use hol_kernel::Thm;

// A theorem's terms are formulas within the limits.
pub(crate) fn formulas_fit(theorem: &Thm)
    ensures { IsFitting theorem.now }
{
    let _conclusion = theorem.concl();
    let _hypotheses = theorem.hyps();
    theorem.well_formed();
}

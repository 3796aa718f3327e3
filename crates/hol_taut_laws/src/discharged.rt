// Cases of a disjunction as an implication, as data.
use hol_prelude_derivations::derivation::Derivation;
use hol_prelude_derivations::derivation::Derivation::Earlier;
use hol_prelude_derivations::formulas::BOTH_CASES;
use hol_prelude_laws::discharge;
use hol_prelude_laws::disjunction::P_OR_Q;

// |- p \/ q ==> (p ==> r) ==> (q ==> r) ==> r
pub(crate) const DISJUNCTION_DECIDES: Derivation = discharge!(P_OR_Q, BOTH_CASES, Earlier(33));

// What a manager's commands are refused for.
ghost use Rattle.hol_script_manager.specs.Refusals.{ManagersRefuse};

use hol_laws_refusals::Refining;

/// `e` is refused as its quoted terms are, as no goal is open, or for one of the refusals of refiner expressions; the theorem of
/// a conversion as its quoted term, or for one of the refusals of conversions. Nothing is computed: the clause is the law, for
/// callers' proofs.
pub fn managers_refuse<R: Refining>()
    ensures { ManagersRefuse R.host }
{}

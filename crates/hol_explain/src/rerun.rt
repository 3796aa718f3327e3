// A script that is run once more.
ghost use Rattle.std.specs.Prelude.{◌≡◌, IfOk, IfErr};
ghost use Rattle.hol_model.specs.declared.fault.Fault.TheVariants.{Memory};
ghost use Rattle.hol_script.specs.Managers.{IsManager};

use hol_explain_hints::Known;
use hol_model::Fault;
use hol_script::Manager;
use std::alloc::Global;

/// What a script that is run once more has come to: the names that are known, and a proof manager of its own.
#[derive(Drop)]
pub(crate) struct Rerun {
    pub(crate) known: Known,
    pub(crate) manager: Manager,
}

impl Rerun {
    /// Where a script begins. Refused: Memory.
    pub(crate) fn new(alloc: Global) -> Result<Rerun, Fault>
        ensures kept { IfOk result (λ rerun. IsManager rerun.manager) }
        ensures err { IfErr result (λ fault. fault ≡ Memory) }
    {
        let Ok(known) = Known::new(alloc) else {
            return Err(Fault::Memory);
        };
        match Manager::new(alloc) {
            Ok(manager) => Ok(Rerun { known, manager }),
            Err(fault) => {
                drop(known);
                Err(fault)
            }
        }
    }
}

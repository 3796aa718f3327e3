// Justifications over so many subgoals.
ghost use Rattle.std.specs.Prelude.{◌≡◌, ◌∷◌, map, IfOk, IfErr};
ghost use Rattle.hol_model.specs.declared.fault.Fault.TheVariants.{Memory};

use crate::just::Just;
use hol_model::Fault;
use std::alloc::Global;

/// A justification over so many subgoals.
#[derive(Drop)]
pub struct Portion {
    pub subgoals: usize,
    pub just: Just,
}

impl Portion {
    ghost use Rattle.hol_just.specs.Portions.{flat_portion_of};

    /// The same portion, by the same lines. Refused: Memory.
    pub fn copy(&self, alloc: Global) -> Result<Portion, Fault>
        ensures ok { IfOk result (λ made. flat_portion_of made ≡ flat_portion_of self.now) }
        ensures err { IfErr result (λ fault. fault ≡ Memory) }
    {
        Ok(Portion {
            subgoals: self.subgoals,
            just: self.just.copy(alloc)?,
        })
    }
}

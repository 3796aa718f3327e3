// What rules, conversions and refiners work on.
ghost use Rattle.std.specs.Prelude.{◌≡◌, IfOk, IfErr};
ghost use Rattle.hol_model.specs.declared.fault.Fault.TheVariants.{Memory};
ghost use Rattle.hol_model.specs.Logic.Logic.{logical_definitions};
ghost use Rattle.hol_theorem_store.specs.Stored.{IsEmpty};
ghost use Rattle.hol_theorem_store.specs.Store.{stored_of};
ghost use Rattle.hol_theorem_library.specs.Library.{IsLibrary};

use hol_journal::Recorder;
use hol_model::Fault;
use hol_prelude::{Bool, prelude};
use hol_taut_laws::{Laws, tautology_laws};
use hol_theorem_store::Store;
use std::alloc::Global;

/// A recorder with the theorems of the prelude and the laws of the connectives, and the theorems that are stored.
#[derive(Drop)]
pub struct Library {
    pub recorder: Recorder,
    pub logic: Bool,
    pub laws: Laws,
    pub store: Store,
}

impl Library {
    /// The library over the logical constants alone, with nothing stored. It is refused where there is no memory, and for
    /// no other reason.
    pub fn new(alloc: Global) -> Result<Library, Fault>
        ensures library { IfOk result IsLibrary }
        ensures theory { IfOk result (λ library. library.recorder.theory ≡ logical_definitions) }
        ensures empty { IfOk result (λ library. IsEmpty (stored_of library.store)) }
        ensures err { IfErr result (λ fault. fault ≡ Memory) }
    {
        let mut recorder = Recorder::new(alloc)?;
        let logic = prelude(&mut recorder)?;
        let laws = tautology_laws(&mut recorder, &logic)?;
        Ok(Library {
            recorder,
            logic,
            laws,
            store: Store::new(alloc),
        })
    }
}

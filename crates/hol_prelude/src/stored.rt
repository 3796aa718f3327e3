// The theorems of the prelude.
ghost use Rattle.std.specs.Prelude.{◌≡◌, ◌≤◌, ◌<◌, [], length, slice_get, Some, IfOk, IfErr};
ghost use Rattle.hol_model.specs.Logic.Logic.{logical_definitions};
ghost use Rattle.hol_model.specs.declared.fault.Fault.TheVariants.{Memory};
ghost use Rattle.hol_journal.specs.Growth.{IsGrown};
ghost use Rattle.hol_journal.specs.Journal.{IsMade};
ghost use Rattle.hol_prelude_derivations.specs.Derivations.{theorems, AreMade};
ghost use Rattle.hol_prelude.specs.Laws.{without_laws};
ghost use Rattle.hol_prelude.specs.declared.tables.TheConstants.{BEHIND_LAWS};
ghost use Rattle.hol_prelude.specs.Prelude.{prelude_theorems};
ghost use Rattle.hol_prelude.specs.HasLogic.{HasLogic, LogicStays};

use crate::stages::with_conjunction;
use crate::tables::{BEHIND_LAWS, FIRST_LAW};
use hol_journal::{Rec, Recorder};
use hol_model::Fault;

/// The stored theorems T_DEF, AND_DEF, IMP_DEF, FORALL_DEF, EXISTS_DEF, OR_DEF, F_DEF, NOT_DEF and TRUTH, the theorems
/// from which rules are made, ETA_AX, SELECT_AX, EXCLUDED_MIDDLE and `T /\ T`.
#[derive(Drop)]
pub struct Bool {
    theorems: Vec<Rec>,
}

impl Bool {
    /// The theorems, in the order in which they were made.
    pub fn theorems(&self) -> &[Rec]
        ensures { result.now ≡ self.now.theorems.items }
    {
        &self.theorems
    }
}

// The theorems without the laws among them.
fn without_laws(mut all: Vec<Rec>) -> Vec<Rec>
    requires { BEHIND_LAWS ≤ length all.items }
    ensures { result.items ≡ without_laws all.items }
{
    drop(all.drain(FIRST_LAW..BEHIND_LAWS));
    all
}

/// The logical constants, defined over a theory without definitions, and the theorems of the prelude. It is refused
/// where there is no memory, and for no other reason.
pub fn prelude(recorder: &mut Recorder) -> Result<Bool, Fault>
    requires new { recorder.old.theory ≡ [] }
    ensures ok { IfOk result (λ bool. theorems bool.theorems.items ≡ prelude_theorems) }
    ensures made { IfOk result (λ bool. AreMade recorder.new bool.theorems.items) }
    ensures logic { IfOk result (HasLogic recorder.new) }
    ensures theory { IfOk result (λ bool. recorder.new.theory ≡ logical_definitions) }
    ensures err { IfErr result (λ fault. fault ≡ Memory) }
    ensures grown { IsGrown recorder.old recorder.new }
{
    let all = with_conjunction(recorder)?;
    Ok(Bool {
        theorems: without_laws(all),
    })
}

/// The theorem of this number among those of the prelude.
pub fn theorem_of<'a>(recorder: &Recorder, logic: &'a Bool, number: usize) -> &'a Rec
    requires logic { HasLogic recorder.now logic.now }
    requires number { number < length prelude_theorems }
    ensures made { IsMade recorder.now result.now }
    ensures theorem { slice_get prelude_theorems number ≡ Some result.now.theorem }
{
    &logic.theorems[number]
}

/// A recorder that has the theorems of the prelude keeps them as its journal grows. Nothing is computed: the clause is
/// the law, for callers' proofs.
pub fn logic_stays()
    ensures { LogicStays }
{}

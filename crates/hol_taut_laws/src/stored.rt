// The laws of a session.
ghost use Rattle.std.specs.Prelude.{◌≡◌, IfOk, IfErr};
ghost use Rattle.hol_model.specs.declared.fault.Fault.TheVariants.{Memory};
ghost use Rattle.hol_model.specs.Logic.Logic.{logical_definitions};
ghost use Rattle.hol_journal.specs.Growth.{IsGrown};
ghost use Rattle.hol_journal.specs.Journal.{IsMade};
ghost use Rattle.hol_prelude.specs.HasLogic.{HasLogic};
ghost use Rattle.hol_taut_laws.specs.LawTheorems as spec;
ghost use Rattle.hol_taut_laws.specs.HasLaws.{HasLaws, LawsStay};

use crate::law::place_of;
use crate::stages::with_denial;
use hol_journal::{Rec, Recorder};
use hol_model::Fault;
use hol_prelude::Bool;
use hol_taut_formulas::Law;

/// The laws of the connectives at truth values, with the theorems that their derivations cite.
#[derive(Drop)]
pub struct Laws {
    theorems: Vec<Rec>,
}

/// The laws, made over the theory of the logical constants, right behind the prelude. It is refused where there is no
/// memory, and for no other reason.
pub fn tautology_laws(recorder: &mut Recorder, logic: &Bool) -> Result<Laws, Fault>
    requires logic { HasLogic recorder.old logic.now }
    requires theory { recorder.old.theory ≡ logical_definitions }
    ensures laws { IfOk result (HasLaws recorder.new) }
    ensures theory { IfOk result (λ laws. recorder.new.theory ≡ logical_definitions) }
    ensures err { IfErr result (λ fault. fault ≡ Memory) }
    ensures grown { IsGrown recorder.old recorder.new }
{
    let theorems = with_denial(recorder, logic)?;
    Ok(Laws { theorems })
}

/// The theorem of a law.
pub fn law_theorem<'a>(recorder: &Recorder, laws: &'a Laws, law: Law) -> &'a Rec
    requires { HasLaws recorder.now laws.now }
    ensures made { IsMade recorder.now result.now }
    ensures theorem { result.now.theorem ≡ spec.law_theorem law }
{
    &laws.theorems[place_of(law)]
}

/// A recorder that has the laws keeps them as its journal grows. Nothing is computed: the clause is the law, for callers'
/// proofs.
pub fn laws_stay()
    ensures { LawsStay }
{}

// Steps that the search for a short proof takes: what they prove is judged at the end.
ghost use Rattle.std.specs.Prelude.{IfOk};
ghost use Rattle.hol_journal.specs.Journal.{IsMade};
ghost use Rattle.hol_journal.specs.Growth.{Continues, IsHeld};

use crate::formula_terms::equal_to;
use hol_equal::trans;
use hol_journal::{Inference, Rec, Recorder};
use hol_model::Fault;
use hol_terms::Term;

/// The theorem of a step.
pub(crate) type Made = Result<Rec, Fault>;

/// REFL.
pub fn reflexive(recorder: &mut Recorder, term: &Term) -> Result<Rec, Fault>
    ensures continues { Continues recorder.old recorder.new result }
{
    recorder.infer(Inference::Refl(term))
}

/// MK_COMB.
pub(crate) fn applied(recorder: &mut Recorder, first: &Rec, second: &Rec) -> Made
    requires first { IsMade recorder.old first.now }
    requires second { IsMade recorder.old second.now }
    ensures continues { Continues recorder.old recorder.new result }
{
    recorder.infer(Inference::MkComb(first, second))
}

/// INST.
pub fn instance(recorder: &mut Recorder, terms: &[(Term, Term)], law: &Rec) -> Result<Rec, Fault>
    requires { IsMade recorder.old law.now }
    ensures continues { Continues recorder.old recorder.new result }
{
    recorder.infer(Inference::Inst(terms, law))
}

/// AP_TERM.
pub(crate) fn under(recorder: &mut Recorder, function: &Term, premise: &Rec) -> Made
    requires { IsMade recorder.old premise.now }
    ensures continues { Continues recorder.old recorder.new result }
{
    let same = reflexive(recorder, function)?;
    applied(recorder, &same, premise)
}

/// From `p <=> q`, `(left <=> p) <=> (left <=> q)`.
pub(crate) fn beside(recorder: &mut Recorder, left: &Term, premise: &Rec) -> Made
    requires { IsMade recorder.old premise.now }
    ensures continues { Continues recorder.old recorder.new result }
{
    let alloc = recorder.alloc();
    let function = equal_to(alloc, left)?;
    under(recorder, &function, premise)
}

/// TRANS, where the second theorem was made.
pub(crate) fn followed(recorder: &mut Recorder, first: Rec, second: Made) -> Made
    requires first { IsMade recorder.old first }
    requires second { IfOk second (IsHeld recorder.old) }
    ensures continues { Continues recorder.old recorder.new result }
{
    match second {
        Ok(second) => trans(recorder, &first, &second),
        Err(fault) => Err(fault),
    }
}

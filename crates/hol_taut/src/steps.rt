// Steps by laws of two formulas, and by equations.
ghost use Rattle.std.specs.Prelude.{Some};
ghost use Rattle.hol_model.specs.Terms.Nameless.{image};
ghost use Rattle.hol_journal.specs.Journal.{IsMade};
ghost use Rattle.hol_journal.specs.Growth.{Continues};
ghost use Rattle.hol_taut_laws.specs.HasLaws.{HasLaws};
ghost use Rattle.hol_taut.specs.Shown.{LeadsOn};
ghost use Rattle.hol_taut.specs.Steps.{AreOfEquation, AreOfChain, LawProves, EquationProves, ChainProves, BothProve};

use hol_bool::for_p_q;
use hol_equal::steps::deduct_antisym;
use hol_equal::{by_fitting_lemma, eq_mp_known, trans_known};
use hol_journal::{Rec, Recorder};
use hol_model::Fault;
use hol_taut_laws::{Law, Laws, law_theorem};
use hol_terms::Term;

/// From the hypothesis of a law at two formulas, its conclusion there, in three steps. The premise says that hypothesis, which is
/// not compared with it.
pub(crate) fn by_one(
    recorder: &mut Recorder,
    laws: &Laws,
    law: Law,
    p: &Term,
    q: &Term,
    premise: &Rec,
) -> Result<Rec, Fault>
    requires laws { HasLaws recorder.old laws.now }
    requires premise { IsMade recorder.old premise.now }
    requires leads { LeadsOn recorder.old.theory (Some law) p.now q.now (image premise.now.theorem.conclusion) }
    ensures continues { Continues recorder.old recorder.new result }
    ensures proves { LawProves recorder.old.theory law p.now q.now premise.now.theorem result }
{
    let alloc = recorder.alloc();
    let terms = for_p_q(alloc, p, q)?;
    let lemma = law_theorem(recorder, laws, law);
    by_fitting_lemma(recorder, &[], &terms, lemma, premise)
}

/// EQ_MP, of theorems with allowed hypotheses, an equation and its left side, which are not compared.
pub(crate) fn by_equation(recorder: &mut Recorder, first: &Rec, second: &Rec) -> Result<Rec, Fault>
    requires first { IsMade recorder.old first.now }
    requires second { IsMade recorder.old second.now }
    requires fits { AreOfEquation (image first.now.theorem.conclusion) (image second.now.theorem.conclusion) }
    ensures continues { Continues recorder.old recorder.new result }
    ensures proves { EquationProves first.now.theorem second.now.theorem result }
{
    eq_mp_known(recorder, first, second)
}

/// TRANS, of theorems with allowed hypotheses, equations whose middle terms are not compared.
pub(crate) fn by_chain(recorder: &mut Recorder, first: &Rec, second: &Rec) -> Result<Rec, Fault>
    requires first { IsMade recorder.old first.now }
    requires second { IsMade recorder.old second.now }
    requires fits { AreOfChain (image first.now.theorem.conclusion) (image second.now.theorem.conclusion) }
    ensures continues { Continues recorder.old recorder.new result }
    ensures proves { ChainProves first.now.theorem second.now.theorem result }
{
    trans_known(recorder, first, second)
}

/// The equation of the conclusions: a hypothesis that is the other conclusion need not be allowed.
pub(crate) fn by_both(recorder: &mut Recorder, first: &Rec, second: &Rec) -> Result<Rec, Fault>
    requires first { IsMade recorder.old first.now }
    requires second { IsMade recorder.old second.now }
    ensures continues { Continues recorder.old recorder.new result }
    ensures proves { BothProve first.now.theorem second.now.theorem result }
{
    deduct_antisym(recorder, first, second)
}

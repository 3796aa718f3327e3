// The tests of a formula that comes in, and its denial.
ghost use Rattle.std.specs.Prelude.{IfOk, IfErr, Err};
ghost use Rattle.hol_model.specs.Terms.Nameless.{image};
ghost use Rattle.hol_model.specs.Propositional.Tautologies.{tautology_outcome};
ghost use Rattle.hol_taut_laws.specs.HasLaws.{HasLaws};
ghost use Rattle.hol_taut.specs.Answers.{AnswersSmall};
ghost use Rattle.hol_taut.specs.Denials.{IsDenied};

use hol_bool::{equivalence, falsity, pass_formula};
use hol_journal::Recorder;
use hol_model::Fault;
use hol_taut_formulas::atoms_of_tautology;
use hol_taut_laws::Laws;
use hol_terms::Term;

/// The denial of a tautology, and the atoms of both.
#[derive(Drop)]
pub(crate) struct Denied {
    /// The equation of the tautology and `F`.
    pub(crate) denial: Term,
    pub(crate) atoms: Vec<Term>,
}

/// The denial of a term that comes in, where that is a tautology.
#[tactic(none)]
pub(crate) fn deny(recorder: &Recorder, _laws: &Laws, term: &Term) -> Result<Denied, Fault>
    requires laws { HasLaws recorder.now _laws.now }
    ensures ok { IfOk result (IsDenied recorder.now.theory term.now) }
    ensures err { IfErr result (λ fault. AnswersSmall (Err fault) (image term.now) (tautology_outcome recorder.now.theory term.now)) }
{
    let alloc = recorder.alloc();
    pass_formula(recorder, term)?;
    let atoms = atoms_of_tautology(alloc, term)?;
    recorder.theory_is_legal();
    let falsity = falsity(alloc)?;
    let denial = equivalence(alloc, term, &falsity)?;
    Ok(Denied { denial, atoms })
}

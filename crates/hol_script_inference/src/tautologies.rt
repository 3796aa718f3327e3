// Tautologies over a session.
ghost use Rattle.std.specs.Prelude.{◌≡◌, List};
ghost use Rattle.hol_model_sessions.specs.CommandGrammar.{by_tautology};
ghost use Rattle.hol_model.specs.Kernel.Theorem.{Theorem};
ghost use Rattle.hol_model.specs.Texts.TermGrammar.{TermTree};
ghost use Rattle.hol_syntax_grammar.specs.Steps.{flat_steps_of};
ghost use Rattle.hol_syntax_grammar.specs.TermSteps.{term_steps, flat_steps};
ghost use Rattle.hol_script_session.specs.SessionState.{state_of, IsSession};
ghost use Rattle.hol_script_inference.specs.Answers.{hostless, AnswersTheorem};
ghost use Rattle.hol_script_inference.specs.Recording.{GrowsJournal, theorem_given, without_row};

use crate::rows::refusal_with_row;
use hol_journal::Rec;
use hol_script_session::reply::Refused;
use hol_script_session::session::Session;
use hol_syntax_grammar::TermStep;
use hol_taut::taut;
use std::alloc::Global;

/// TAUT: a tautology. A proposition that is none is refused with the first row of values of its atoms that makes it
/// false. The state stays.
pub(crate) fn tautology(
    session: &mut Session,
    alloc: Global,
    steps: &[TermStep],
) -> Result<Rec, Refused>
    requires { IsSession session.old }
    ensures answers { (lemmas : List Theorem) (tree : TermTree) → flat_steps_of steps.now ≡ flat_steps (term_steps tree)
        → AnswersTheorem hostless lemmas (theorem_given result) (state_of session.old) (by_tautology tree) }
    ensures grows { GrowsJournal session.old session.new (without_row result) }
{
    let term = match session.term(alloc, steps) {
        Ok(term) => term,
        Err(fault) => return Err(Refused::plain(fault)),
    };
    term.well_formed();
    term.well_named();
    match taut(&mut session.library.recorder, &session.library.laws, &term) {
        Ok(theorem) => Ok(theorem),
        Err(fault) => Err(refusal_with_row(alloc, &session.scope, &term, fault)),
    }
}

// Conversions over a session.
ghost use Rattle.std.specs.Prelude.{◌≡◌};
ghost use Rattle.hol_model_sessions.specs.CommandGrammar.{by_conversion};
ghost use Rattle.hol_model_sessions.specs.ConversionGrammar.{ConversionUnit};
ghost use Rattle.hol_model_sessions.specs.SessionTools.{conversion_of_unit};
ghost use Rattle.hol_model.specs.Texts.TermGrammar.{TermTree};
ghost use Rattle.hol_tactic_exprs.specs.Expressions.{conversion_of};
ghost use Rattle.hol_syntax_grammar.specs.Steps.{flat_steps_of};
ghost use Rattle.hol_syntax_grammar.specs.TermSteps.{term_steps, flat_steps};
ghost use Rattle.hol_journal.specs.Journal.{theorem_in};
ghost use Rattle.hol_script_session.specs.SessionState.{state_of, lemmas_of, IsSession};
ghost use Rattle.hol_script_inference.specs.Answers.{session_tools, AnswersPlainly};
ghost use Rattle.hol_script_inference.specs.Recording.{MakesTheorem};

use hol_conv::apply;
use hol_host::Refiners;
use hol_journal::Rec;
use hol_model::{Fault, STEPS_LIMIT};
use hol_script_session::session::Session;
use hol_syntax_grammar::TermStep;
use hol_tactic_exprs::{Conv, Fuel};
use std::alloc::Global;

/// CONV: what a conversion makes of a term, within the steps that a command may take. The state stays.
pub(crate) fn conversion<H: Refiners>(
    session: &mut Session,
    alloc: Global,
    hosts: &H,
    conv: &Conv,
    steps: &[TermStep],
) -> Result<Rec, Fault>
    requires { IsSession session.old }
    ensures answers { (unit : ConversionUnit) (tree : TermTree) → conversion_of conv.now ≡ conversion_of_unit unit → flat_steps_of steps.now ≡ flat_steps (term_steps tree)
        → AnswersPlainly (session_tools (H.refiners hosts.now) (H.conversions hosts.now)) (lemmas_of session.old) (theorem_in result) (state_of session.old) (by_conversion unit tree) }
    ensures makes { MakesTheorem session.old session.new result }
{
    let term = session.known_term(alloc, steps)?;
    let mut fuel = Fuel::new(STEPS_LIMIT);
    apply(&mut session.library, hosts, conv, &term, &mut fuel)
}

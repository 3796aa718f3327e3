// What `thm` does in a session.
ghost use Rattle.std.specs.Prelude.{◌≡◌};
ghost use Rattle.hol_model_sessions.specs.Commands.{RuleTree};
ghost use Rattle.hol_model_sessions.specs.CommandGrammar.{TheoremTree, thm_command};
ghost use Rattle.hol_journal.specs.Journal.{theorem_in};
ghost use Rattle.hol_script_commands.specs.Views.{IsAsked, IsRule};
ghost use Rattle.hol_script_session.specs.Answers.{PerformsWith};
ghost use Rattle.hol_script_session.specs.SessionState.{state_of, lemmas_of, IsSession, IsLaterLibrary, StaysMade};
ghost use Rattle.hol_script_inference.specs.Answers.{session_tools, AnswersRule, AnswersTheorem};
ghost use Rattle.hol_script_inference.specs.Recording.{GrowsJournal, MakesTheorem, theorem_given, without_row};

use crate::conversions::conversion;
use crate::instances::{inst, inst_type};
use crate::named_rules::by_name;
use crate::tautologies::tautology;
use hol_host::Refiners;
use hol_journal::Rec;
use hol_model::Fault;
use hol_script_commands::command::{Asked, Rule};
use hol_script_session::libraries_grow;
use hol_script_session::reply::{Printed, Refused};
use hol_script_session::session::Session;
use std::alloc::Global;

/// `thm NAME = RULE ..`, `thm NAME = TAUT "p"` and `thm NAME = CONV conv "t"`: stores and prints the theorem that is asked
/// for; a host's conversions may be called. A refusal changes nothing.
pub fn thm<H: Refiners>(
    session: &mut Session,
    alloc: Global,
    hosts: &H,
    name: &str,
    asked: &Asked,
) -> Result<Printed, Refused>
    requires { IsSession session.old }
    ensures performs { (tree : TheoremTree) → IsAsked asked.now tree
        → PerformsWith (session_tools (H.refiners hosts.now) (H.conversions hosts.now)) (lemmas_of session.old) (state_of session.old) (thm_command name.now tree) result (state_of session.new) }
    ensures kept { IsSession session.new }
    ensures lemmas { lemmas_of session.new ≡ lemmas_of session.old }
    ensures stays { StaysMade session.old session.new }
    ensures later { IsLaterLibrary (state_of session.old) (state_of session.new) }
{
    match session.test_name(name) {
        Ok(()) => {}
        Err(fault) => return Err(Refused::plain(fault)),
    }
    libraries_grow();
    let theorem = theorem(session, alloc, hosts, asked)?;
    match session.keep(alloc, name, theorem) {
        Ok(printed) => Ok(printed),
        Err(fault) => Err(Refused::plain(fault)),
    }
}

// The theorem that `thm` asks for.
type Made = Result<Rec, Refused>;

// What `thm` asks for. The state stays; where it is refused, what was recorded for it is not kept.
fn theorem<H: Refiners>(session: &mut Session, alloc: Global, hosts: &H, asked: &Asked) -> Made
    requires { IsSession session.old }
    ensures answers { (tree : TheoremTree) → IsAsked asked.now tree
        → AnswersTheorem (session_tools (H.refiners hosts.now) (H.conversions hosts.now)) (lemmas_of session.old) (theorem_given result) (state_of session.old) tree }
    ensures makes { MakesTheorem session.old session.new (without_row result) }
{
    let mark = session.library.recorder.entries();
    match inferred(session, alloc, hosts, asked) {
        Ok(theorem) => Ok(theorem),
        Err(refused) => {
            session.library.recorder.give_back(mark);
            Err(refused)
        }
    }
}

// What `thm` asks for. The state stays.
fn inferred<H: Refiners>(session: &mut Session, alloc: Global, hosts: &H, asked: &Asked) -> Made
    requires { IsSession session.old }
    ensures answers { (tree : TheoremTree) → IsAsked asked.now tree
        → AnswersTheorem (session_tools (H.refiners hosts.now) (H.conversions hosts.now)) (lemmas_of session.old) (theorem_given result) (state_of session.old) tree }
    ensures makes { MakesTheorem session.old session.new (without_row result) }
{
    match asked {
        Asked::Rule(rule) => match apply(session, alloc, rule) {
            Ok(theorem) => Ok(theorem),
            Err(fault) => Err(Refused::plain(fault)),
        },
        Asked::Tautology(steps) => tautology(session, alloc, steps),
        Asked::Conversion(conv, steps) => match conversion(session, alloc, hosts, conv, steps) {
            Ok(theorem) => Ok(theorem),
            Err(fault) => Err(Refused::plain(fault)),
        },
    }
}

// What a rule gives: its arguments from left to right, then the rule. The state stays.
fn apply(session: &mut Session, alloc: Global, rule: &Rule) -> Result<Rec, Fault>
    requires { IsSession session.old }
    ensures answers { (tree : RuleTree) → IsRule rule.now tree → AnswersRule (theorem_in result) (state_of session.old) tree }
    ensures grows { GrowsJournal session.old session.new result }
{
    match rule {
        Rule::Named(rule, terms, names) => by_name(session, alloc, *rule, terms, names),
        Rule::Inst(pairs, name) => inst(session, alloc, pairs, name),
        Rule::InstType(pairs, name) => inst_type(session, alloc, pairs, name),
    }
}

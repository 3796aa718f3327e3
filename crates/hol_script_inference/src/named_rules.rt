// Rules that take terms and theorems, over a session.
ghost use Rattle.std.specs.Prelude.{◌≡◌, ◌∷◌, List, ℕ, [], length, map, IfOk};
ghost use Rattle.hol_model.specs.Texts.Reading.{meaning};
ghost use Rattle.hol_model.specs.Texts.TermGrammar.{TermTree};
ghost use Rattle.hol_model_rules.specs.RuleForms.{form_of};
ghost use Rattle.hol_model_sessions.specs.Commands as commands;
ghost use Rattle.hol_model_sessions.specs.Sessions.{each, scope_in};
ghost use Rattle.hol_journal.specs.Journal.{Journal, theorem_in};
ghost use Rattle.hol_just_replay.specs.Outcomes.{AreLent};
ghost use Rattle.hol_theorem_store.specs.Store.{stored_of};
ghost use Rattle.hol_theorem_store.specs.Stored.{IsStoreOf};
ghost use Rattle.hol_script_commands.specs.Views.{AreTerms, AreNames};
ghost use Rattle.hol_script_session.specs.SessionState.{state_of, IsSession};
ghost use Rattle.hol_script_inference.specs.Answers.{AnswersRule, AnswersItems, AnswersLent, stored_theorem};
ghost use Rattle.hol_script_inference.specs.Recording.{GrowsJournal};

use hol_journal::Rec;
use hol_just::rule_of_name;
use hol_just_replay::apply_rule;
use hol_model::Fault;
use hol_model_rules::RuleName;
use hol_script_session::session::Session;
use hol_syntax_grammar::TermStep;
use hol_terms::Term;
use hol_theorem_store::Store;
use std::alloc::Global;

/// A rule on quoted terms and stored theorems: its arguments from left to right, then the rule. The state stays. Terms of
/// another number than the rule takes, which no command has, are refused.
pub(crate) fn by_name(
    session: &mut Session,
    alloc: Global,
    rule: RuleName,
    quoted: &[Vec<TermStep>],
    names: &[&str],
) -> Result<Rec, Fault>
    requires { IsSession session.old }
    ensures answers { (trees : List TermTree) (theorems : List (List ℕ)) → length trees ≡ (form_of rule).terms → AreTerms quoted.now trees → AreNames names.now theorems
        → AnswersRule (theorem_in result) (state_of session.old) (commands.by_name rule trees theorems) }
    ensures grows { GrowsJournal session.old session.new result }
{
    let terms = terms(session, alloc, quoted)?;
    let premises = premises(&session.library.store, alloc, names)?;
    let Some(rule) = rule_of_name(rule, terms) else {
        return Err(Fault::Syntax);
    };
    apply_rule(
        &mut session.library.recorder,
        &session.library.logic,
        &rule,
        &premises,
    )
}

// The terms of quoted arguments.
fn terms(session: &Session, alloc: Global, quoted: &[Vec<TermStep>]) -> Result<Vec<Term>, Fault>
    requires { IsSession session.now }
    ensures { (trees : List TermTree) → AreTerms quoted.now trees → AnswersItems result (each (meaning (scope_in (state_of session.now)) []) trees) }
{
    let mut terms = Vec::new(alloc);
    for steps in quoted {
        terms.push(session.term(alloc, steps)?)?;
    }
    Ok(terms)
}

// The theorems that are stored under names.
fn premises<'a>(store: &'a Store, alloc: Global, names: &[&str]) -> Result<Vec<&'a Rec>, Fault>
    ensures found { AnswersLent result (each (stored_theorem (stored_of store.now)) (map (λ name. name.now) names.now)) }
    ensures made { (journal : Journal) → IsStoreOf journal (stored_of store.now) → IfOk result (λ premises. AreLent journal premises.items) }
{
    let mut premises = Vec::new(alloc);
    for name in names {
        let Some(premise) = store.get(name) else {
            return Err(Fault::UnknownName);
        };
        premises.push(premise)?;
    }
    Ok(premises)
}

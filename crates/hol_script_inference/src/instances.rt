// INST and INST_TYPE over a session.
ghost use Rattle.std.specs.Prelude.{ℕ, List};
ghost use Rattle.hol_model_sessions.specs.Commands as commands;
ghost use Rattle.hol_model_sessions.specs.Sessions.{each, scope_in};
ghost use Rattle.hol_model_sessions.specs.Sessions as spec;
ghost use Rattle.hol_model.specs.Kernel.Outcome.{Answers};
ghost use Rattle.hol_model.specs.Texts.TermGrammar.{TermTree};
ghost use Rattle.hol_model.specs.Texts.TypeGrammar.{TypeTree};
ghost use Rattle.hol_journal.specs.Journal.{theorem_in};
ghost use Rattle.hol_script_commands.specs.Views.{IsTermPair, AreTermPairs, IsTypePair, AreTypePairs};
ghost use Rattle.hol_script_session.specs.SessionState.{state_of, IsSession};
ghost use Rattle.hol_script_inference.specs.Answers.{AnswersRule, AnswersItems};
ghost use Rattle.hol_script_inference.specs.Recording.{GrowsJournal};

use hol_journal::Rec;
use hol_just::Rule;
use hol_just_replay::apply_rule;
use hol_model::Fault;
use hol_script_commands::pairs::{TermPair, TypePair};
use hol_script_session::session::Session;
use hol_terms::Term;
use hol_types::Ty;
use std::alloc::Global;

// The terms of a pair.
fn replacement(session: &Session, alloc: Global, pair: &TermPair) -> Result<(Term, Term), Fault>
    requires { IsSession session.now }
    ensures { (trees : TermTree × TermTree) → IsTermPair pair.now trees
        → Answers result (spec.replacement (scope_in (state_of session.now)) trees) }
{
    let new = session.term(alloc, &pair.new)?;
    let old = session.term(alloc, &pair.old)?;
    Ok((new, old))
}

// The replacements that pairs of terms are.
fn replacements(
    session: &Session,
    alloc: Global,
    pairs: &[TermPair],
) -> Result<Vec<(Term, Term)>, Fault>
    requires { IsSession session.now }
    ensures { (trees : List (TermTree × TermTree)) → AreTermPairs pairs.now trees
        → AnswersItems result (each (spec.replacement (scope_in (state_of session.now))) trees) }
{
    let mut theta = Vec::new(alloc);
    for pair in pairs {
        theta.push(replacement(session, alloc, pair)?)?;
    }
    Ok(theta)
}

/// INST
pub(crate) fn inst(
    session: &mut Session,
    alloc: Global,
    pairs: &[TermPair],
    name: &str,
) -> Result<Rec, Fault>
    requires { IsSession session.old }
    ensures answers { (trees : List (TermTree × TermTree)) → AreTermPairs pairs.now trees
        → AnswersRule (theorem_in result) (state_of session.old) (commands.by_inst trees name.now) }
    ensures grows { GrowsJournal session.old session.new result }
{
    let theta = replacements(session, alloc, pairs)?;
    let Some(premise) = session.library.store.get(name) else {
        return Err(Fault::UnknownName);
    };
    let rule = Rule::Inst(theta);
    apply_rule(
        &mut session.library.recorder,
        &session.library.logic,
        &rule,
        &[premise],
    )
}

// The type and the type variable of a pair.
fn type_replacement(session: &Session, alloc: Global, pair: &TypePair) -> Result<(Ty, Ty), Fault>
    requires { IsSession session.now }
    ensures { (trees : TypeTree × List ℕ) → IsTypePair pair.now trees
        → Answers result (spec.type_replacement (scope_in (state_of session.now)) trees) }
{
    let new = session.ty(alloc, &pair.new)?;
    let old = Ty::tyvar(alloc, pair.old)?;
    Ok((new, old))
}

// The replacements that pairs of a type and a type variable are.
fn type_replacements(
    session: &Session,
    alloc: Global,
    pairs: &[TypePair],
) -> Result<Vec<(Ty, Ty)>, Fault>
    requires { IsSession session.now }
    ensures { (trees : List (TypeTree × List ℕ)) → AreTypePairs pairs.now trees
        → AnswersItems result (each (spec.type_replacement (scope_in (state_of session.now))) trees) }
{
    let mut theta = Vec::new(alloc);
    for pair in pairs {
        theta.push(type_replacement(session, alloc, pair)?)?;
    }
    Ok(theta)
}

/// INST_TYPE
pub(crate) fn inst_type(
    session: &mut Session,
    alloc: Global,
    pairs: &[TypePair],
    name: &str,
) -> Result<Rec, Fault>
    requires { IsSession session.old }
    ensures answers { (trees : List (TypeTree × List ℕ)) → AreTypePairs pairs.now trees
        → AnswersRule (theorem_in result) (state_of session.old) (commands.by_inst_type trees name.now) }
    ensures grows { GrowsJournal session.old session.new result }
{
    let theta = type_replacements(session, alloc, pairs)?;
    let Some(premise) = session.library.store.get(name) else {
        return Err(Fault::UnknownName);
    };
    let rule = Rule::InstType(theta);
    apply_rule(
        &mut session.library.recorder,
        &session.library.logic,
        &rule,
        &[premise],
    )
}

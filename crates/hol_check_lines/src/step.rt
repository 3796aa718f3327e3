// What a line with a theorem adds to a log, or why it is refused.
ghost use Rattle.std.specs.Prelude.{◌≡◌, ◌≤◌, length};
ghost use Rattle.hol_model.specs.declared.limits.TheConstants.{DEFINITIONS_LIMIT};
ghost use Rattle.hol_model.specs.Logs.LogLine.{LogRule};
ghost use Rattle.hol_model.specs.Logs.LogLine.LogLine.{theorem_line};
ghost use Rattle.hol_model.specs.Logs.LogLine.LogRule.{abs_step, inst_step, inst_type_step, definition_step};
ghost use Rattle.hol_logtext.specs.Lines.{rule_of};
ghost use Rattle.hol_check_terms.specs.Terms.{TermTable, term_at, IsGrown};
ghost use Rattle.hol_check_rules.specs.State.{sequent_in, state_of, IsContents, IsFittingTheorem};
ghost use Rattle.hol_check_rules.specs.Judged.{Judges, IsMadeLine};
ghost use Rattle.hol_check_lines.specs.Named.{AreRuleMade, IsMadePair};
ghost use Rattle.hol_check_lines.specs.Rules.{term_rule, term_step, pair_rule, pair_step};
ghost use Rattle.std.specs.List.{All};
ghost use Rattle.hol_check_rules.specs.declared.state.Contents as state;
ghost use Rattle.hol_check_rules.specs.Steps.{Step, IsStep, Takes};
ghost use Rattle.hol_check_changes.specs.Forming.{IsFitting};

use crate::entry_lines::new_name;
use crate::judge::Judged;
use crate::step_pairs::{term_pairs, type_pairs};
use hol_check_rules::state::{Addition, Contents, Theorem, is_full, term_at, theorem_at};
use hol_check_rules::steps::axioms::{eta, select};
use hol_check_rules::steps::definition::define;
use hol_check_rules::steps::equality::{abs, beta, mk_comb, refl, trans};
use hol_check_rules::steps::instances::{inst, inst_type};
use hol_check_rules::steps::logic::{assume, deduct, eq_mp};
use hol_check_terms::terms::Terms;
use hol_logtext::Rule;
use hol_model::{Cause, Fault, is_constant_name};

/// The rules whose lines name a term.
#[derive(Clone, Copy)]
pub(crate) enum TermRule {
    Refl,
    Beta,
    Assume,
}

/// The rules whose lines name two theorems.
#[derive(Clone, Copy)]
pub(crate) enum PairRule {
    Trans,
    MkComb,
    EqMp,
    Deduct,
}

/// What a line with a theorem adds, or the first cause that refuses it. Its conditions are tested in the order of their
/// causes: `number`, `name`, `type`, `rule`, `large`.
pub(crate) fn judge_step(terms: &mut Terms, contents: &Contents, rule: &Rule<'_>) -> Judged
    requires contents { IsContents terms.old contents.now }
    requires made { AreRuleMade contents.now (rule_of rule.now) }
    ensures { Judges (theorem_line (rule_of rule.now)) contents.now terms.old result terms.new }
{
    match rule {
        Rule::Refl(term) => judge_term(terms, contents, TermRule::Refl, *term),
        Rule::Trans(i, j) => judge_pair(terms, contents, PairRule::Trans, *i, *j),
        Rule::MkComb(i, j) => judge_pair(terms, contents, PairRule::MkComb, *i, *j),
        Rule::Abs(variable, premise) => judge_abs(terms, contents, *variable, *premise),
        Rule::Beta(term) => judge_term(terms, contents, TermRule::Beta, *term),
        Rule::Assume(term) => judge_term(terms, contents, TermRule::Assume, *term),
        Rule::EqMp(i, j) => judge_pair(terms, contents, PairRule::EqMp, *i, *j),
        Rule::Deduct(i, j) => judge_pair(terms, contents, PairRule::Deduct, *i, *j),
        Rule::Inst(premise, pairs) => judge_inst(terms, contents, *premise, pairs),
        Rule::InstType(premise, pairs) => judge_inst_type(terms, contents, *premise, pairs),
        Rule::Eta => judged(eta(terms)),
        Rule::Select => judged(select(terms)),
        Rule::Def(name, body) => judge_definition(terms, contents, name.as_bytes(), *body),
    }
}

// What a step that was taken adds.
fn judged(taken: Result<Result<Theorem, Cause>, Fault>) -> Judged
    ensures { (rule : LogRule) (contents : state.Contents) (earlier now : TermTable) (step : Step) → length contents.entries.items ≤ DEFINITIONS_LIMIT → IsGrown earlier now
        → IsStep (state_of earlier contents) rule step → Takes step taken now.terms → Judges (theorem_line rule) contents earlier result now }
{
    match taken? {
        Ok(theorem) => Ok(Ok(Addition::Proved(theorem))),
        Err(cause) => Ok(Err(cause)),
    }
}

// A step by a rule over a term.
fn judge_term(terms: &mut Terms, contents: &Contents, rule: TermRule, term: u32) -> Judged
    requires contents { IsContents terms.old contents.now }
    requires made { IsMadeLine contents.now term }
    ensures { Judges (theorem_line (term_rule rule term)) contents.now terms.old result terms.new }
{
    match term_at(contents, term) {
        Some(term) => judged(take_term(terms, rule, term)),
        None => Ok(Err(Cause::Number)),
    }
}

fn take_term(
    terms: &mut Terms,
    rule: TermRule,
    term: usize,
) -> Result<Result<Theorem, Cause>, Fault>
    requires { IsFitting terms.old.terms term }
    ensures taken { Takes (term_step rule (term_at terms.old.terms term)) result terms.new.terms }
    ensures grows { IsGrown terms.old terms.new }
{
    match rule {
        TermRule::Refl => refl(terms, term),
        TermRule::Beta => beta(terms, term),
        TermRule::Assume => assume(terms, term),
    }
}

// A step by a rule over two theorems.
fn judge_pair(
    terms: &mut Terms,
    contents: &Contents,
    rule: PairRule,
    first: u32,
    second: u32,
) -> Judged
    requires { IsContents terms.old contents.now }
    ensures { Judges (theorem_line (pair_rule rule first second)) contents.now terms.old result terms.new }
{
    match (theorem_at(contents, first), theorem_at(contents, second)) {
        (Some(first), Some(second)) => judged(take_pair(terms, rule, first, second)),
        _ => Ok(Err(Cause::Number)),
    }
}

fn take_pair(
    terms: &mut Terms,
    rule: PairRule,
    first: &Theorem,
    second: &Theorem,
) -> Result<Result<Theorem, Cause>, Fault>
    requires first { IsFittingTheorem terms.old.terms first.now }
    requires second { IsFittingTheorem terms.old.terms second.now }
    ensures taken { Takes (pair_step rule (sequent_in terms.old.terms first.now) (sequent_in terms.old.terms second.now)) result terms.new.terms }
    ensures grows { IsGrown terms.old terms.new }
{
    match rule {
        PairRule::Trans => trans(terms, first, second),
        PairRule::MkComb => mk_comb(terms, first, second),
        PairRule::EqMp => eq_mp(terms, first, second),
        PairRule::Deduct => deduct(terms, first, second),
    }
}

fn judge_abs(terms: &mut Terms, contents: &Contents, variable: u32, premise: u32) -> Judged
    requires contents { IsContents terms.old contents.now }
    requires made { IsMadeLine contents.now variable }
    ensures { Judges (theorem_line (abs_step variable premise)) contents.now terms.old result terms.new }
{
    match (term_at(contents, variable), theorem_at(contents, premise)) {
        (Some(variable), Some(premise)) => judged(abs(terms, variable, premise)),
        _ => Ok(Err(Cause::Number)),
    }
}

fn judge_inst(terms: &mut Terms, contents: &Contents, premise: u32, pairs: &[(u32, u32)]) -> Judged
    requires contents { IsContents terms.old contents.now }
    requires made { All (IsMadePair contents.now) pairs.now }
    ensures { Judges (theorem_line (inst_step premise pairs.now)) contents.now terms.old result terms.new }
{
    let Some(premise) = theorem_at(contents, premise) else {
        return Ok(Err(Cause::Number));
    };
    let Some(pairs) = term_pairs(terms, contents, pairs)? else {
        return Ok(Err(Cause::Number));
    };
    judged(inst(terms, premise, &pairs))
}

fn judge_inst_type(
    terms: &mut Terms,
    contents: &Contents,
    premise: u32,
    pairs: &[(u32, u32)],
) -> Judged
    requires { IsContents terms.old contents.now }
    ensures { Judges (theorem_line (inst_type_step premise pairs.now)) contents.now terms.old result terms.new }
{
    let Some(premise) = theorem_at(contents, premise) else {
        return Ok(Err(Cause::Number));
    };
    let Some(pairs) = type_pairs(terms, contents, pairs)? else {
        return Ok(Err(Cause::Number));
    };
    judged(inst_type(terms, premise, &pairs))
}

fn judge_definition(terms: &mut Terms, contents: &Contents, name: &[u8], body: u32) -> Judged
    requires contents { IsContents terms.old contents.now }
    requires made { IsMadeLine contents.now body }
    ensures { Judges (theorem_line (definition_step name.now body)) contents.now terms.old result terms.new }
{
    let Some(body) = term_at(contents, body) else {
        return Ok(Err(Cause::Number));
    };
    let is_legal = is_constant_name(name);
    let Some(number) = new_name(terms, contents, name, is_legal)? else {
        return Ok(Err(Cause::Name));
    };
    let given = match define(terms, number, body)? {
        Ok(given) => given,
        Err(cause) => return Ok(Err(cause)),
    };
    if is_full(contents) {
        return Ok(Err(Cause::Large));
    }
    Ok(Ok(Addition::Defined(number, given.ty, body, given.conclusion)))
}

// The terms that lines of steps and claims name, which are made before such a line is judged.
ghost use Rattle.std.specs.Prelude.{◌≡◌, IfErr, OnOk};
ghost use Rattle.std.specs.List.{All};
ghost use Rattle.hol_model.specs.declared.fault.Fault.TheVariants.{Memory};
ghost use Rattle.hol_logtext.specs.Lines.{line_of, rule_of};
ghost use Rattle.hol_check_rules.specs.State.{IsContents};
ghost use Rattle.hol_check_rules.specs.Judged.{IsMadeLine};
ghost use Rattle.hol_check_lines.specs.Named.{AreNamedMade, AreRuleMade, IsMadePair, Makes};

use hol_check_rules::state::Contents;
use hol_check_terms::terms::Terms;
use hol_check_written::making::make;
use hol_logtext::{Line, Rule};
use hol_model::Fault;

/// Makes the terms that a line names where they count as a term: in a step, and in a claim. Memory may be used up here
/// that their own lines did not need.
#[tactic(auto, using(crate::proofs::NamedLemmas::Makes_same, crate::proofs::NamedLemmas::Makes_trans, crate::proofs::NamedLemmas::made_claim))]
pub(crate) fn make_named(
    terms: &mut Terms,
    contents: &mut Contents,
    line: &Line<'_>,
) -> Result<(), Fault>
    requires { IsContents terms.old contents.old }
    ensures made { OnOk result (AreNamedMade contents.new (line_of line.now)) }
    ensures makes { Makes terms.old terms.new contents.old contents.new }
    ensures refused { IfErr result (λ fault. fault ≡ Memory) }
{
    match line {
        Line::Theorem(rule) => make_of_rule(terms, contents, rule),
        Line::Claim(_name, _theorem, conclusion, hypotheses) => {
            make_lines(terms, contents, hypotheses)?;
            make_line(terms, contents, *conclusion)
        }
        _ => Ok(()),
    }
}

// Makes the terms that a rule names.
#[tactic(auto, using(crate::proofs::NamedLemmas::Makes_same))]
fn make_of_rule(terms: &mut Terms, contents: &mut Contents, rule: &Rule<'_>) -> Result<(), Fault>
    requires { IsContents terms.old contents.old }
    ensures made { OnOk result (AreRuleMade contents.new (rule_of rule.now)) }
    ensures makes { Makes terms.old terms.new contents.old contents.new }
    ensures refused { IfErr result (λ fault. fault ≡ Memory) }
{
    match rule {
        Rule::Refl(term) => make_line(terms, contents, *term),
        Rule::Abs(variable, _premise) => make_line(terms, contents, *variable),
        Rule::Beta(term) => make_line(terms, contents, *term),
        Rule::Assume(term) => make_line(terms, contents, *term),
        Rule::Inst(_premise, pairs) => make_pairs(terms, contents, pairs),
        Rule::Def(_name, body) => make_line(terms, contents, *body),
        _ => Ok(()),
    }
}

// Makes the terms of some lines.
fn make_lines(terms: &mut Terms, contents: &mut Contents, lines: &[u32]) -> Result<(), Fault>
    requires { IsContents terms.old contents.old }
    ensures made { OnOk result (All (IsMadeLine contents.new) lines.now) }
    ensures makes { Makes terms.old terms.new contents.old contents.new }
    ensures refused { IfErr result (λ fault. fault ≡ Memory) }
{
    for line in lines {
        make_line(terms, contents, *line)?;
    }
    Ok(())
}

// Makes the terms of pairs of lines.
fn make_pairs(terms: &mut Terms, contents: &mut Contents, pairs: &[(u32, u32)]) -> Result<(), Fault>
    requires { IsContents terms.old contents.old }
    ensures made { OnOk result (All (IsMadePair contents.new) pairs.now) }
    ensures makes { Makes terms.old terms.new contents.old contents.new }
    ensures refused { IfErr result (λ fault. fault ≡ Memory) }
{
    for pair in pairs {
        make_line(terms, contents, pair.0)?;
        make_line(terms, contents, pair.1)?;
    }
    Ok(())
}

// Makes the term of a line, where the line is there.
#[tactic(auto, using(crate::proofs::NamedLemmas::Makes_same, crate::proofs::NamedLemmas::made_line, crate::proofs::NamedLemmas::no_line_made))]
fn make_line(terms: &mut Terms, contents: &mut Contents, line: u32) -> Result<(), Fault>
    requires { IsContents terms.old contents.old }
    ensures made { OnOk result (IsMadeLine contents.new line) }
    ensures makes { Makes terms.old terms.new contents.old contents.new }
    ensures refused { IfErr result (λ fault. fault ≡ Memory) }
{
    if line as usize >= contents.terms.len() {
        return Ok(());
    }
    make(terms, &mut contents.made, &contents.terms, line as usize)
}

// Rules that take terms and theorems, read from the tokens of a command.
ghost use Rattle.hol_model_rules.specs.RuleForms.{form_of};
ghost use Rattle.hol_syntax_grammar.specs.Views.{tokens_of};
ghost use Rattle.hol_tactic_grammar.specs.Tokens.{AreTokens};
ghost use Rattle.hol_script_commands.specs.Reading.{ParsesArguments};

use crate::command::Rule;
use crate::quotes::parse_quotes;
use crate::tokens::only_names;
use hol_model_rules::RuleName;
use hol_syntax_grammar::{ReadError, Token};
use std::alloc::Global;

/// As many quoted terms and then names of theorems as the rule takes, and nothing else.
pub(crate) fn parse_named<'a>(
    alloc: Global,
    rule: RuleName,
    tokens: &'a [Token<'a>],
) -> Result<Rule<'a>, ReadError>
    requires { AreTokens (tokens_of tokens.now) }
    ensures { ParsesArguments result (form_of rule).word (tokens_of tokens.now) }
{
    let (terms, rest) = parse_quotes(alloc, rule.terms(), tokens)?;
    let names = only_names(alloc, rule.theorems(), rest)?;
    Ok(Rule::Named(rule, terms, names))
}

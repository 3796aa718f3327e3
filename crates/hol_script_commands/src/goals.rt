// Commands of the goal stack, read from tokens.
ghost use Rattle.std.specs.Prelude.{◌≡◌, ◌≤◌};
ghost use Rattle.hol_model.specs.declared.limits.TheConstants.{NUMBER_LIMIT};
ghost use Rattle.hol_model.specs.Texts.Lexing.{numeral_value};
ghost use Rattle.hol_syntax_grammar.specs.Views.{tokens_of};
ghost use Rattle.hol_tactic_grammar.specs.Tokens.{AreTokens};
ghost use Rattle.hol_script_commands.specs.declared.command.CommandKind.TheVariants.{OfGoals};
ghost use Rattle.hol_script_commands.specs.Reading.{TakesNumber, ParsesBehind};

use crate::command::{Command, Parsed};
use crate::quotes::parse_only_quote;
use hol_syntax_grammar::{ReadError, Token};
use hol_tactic_grammar::tactic_of;
use std::alloc::Global;

/// A command of the goal stack without its argument.
#[derive(Clone, Copy, Drop)]
pub enum GoalKind {
    Goal,
    Expand,
    Back,
    Print,
    Rotate,
}

// A quoted term and nothing else.
fn parse_goal<'a>(alloc: Global, tokens: &'a [Token<'a>]) -> Parsed<'a>
    ensures { ParsesBehind result (OfGoals GoalKind.Goal) (tokens_of tokens.now) }
{
    Ok(Command::Goal(parse_only_quote(alloc, tokens)?))
}

// A refiner expression and nothing else.
fn parse_expand<'a>(alloc: Global, tokens: &'a [Token<'a>]) -> Parsed<'a>
    requires { AreTokens (tokens_of tokens.now) }
    ensures { ParsesBehind result (OfGoals GoalKind.Expand) (tokens_of tokens.now) }
{
    Ok(Command::Expand(tactic_of(alloc, tokens)?))
}

fn parse_back<'a>(tokens: &'a [Token<'a>]) -> Parsed<'a>
    ensures { ParsesBehind result (OfGoals GoalKind.Back) (tokens_of tokens.now) }
{
    if !tokens.is_empty() {
        return Err(ReadError::Syntax);
    }
    Ok(Command::Back)
}

fn parse_print<'a>(tokens: &'a [Token<'a>]) -> Parsed<'a>
    ensures { ParsesBehind result (OfGoals GoalKind.Print) (tokens_of tokens.now) }
{
    if !tokens.is_empty() {
        return Err(ReadError::Syntax);
    }
    Ok(Command::Print)
}

// The number that the digits write.
fn number_of(digits: &[u8]) -> u32
    requires { numeral_value digits.now ≤ NUMBER_LIMIT }
    ensures { result ≡ numeral_value digits.now }
{
    let mut value: u32 = 0;
    for digit in digits {
        value = value * 10 + u32::from(digit.saturating_sub(48));
    }
    value
}

// The number that the tokens are.
fn only_number(tokens: &[Token<'_>]) -> Option<u32>
    requires { AreTokens (tokens_of tokens.now) }
    ensures { TakesNumber result (tokens_of tokens.now) }
{
    match tokens {
        [Token::Number(digits)] => Some(number_of(digits)),
        _ => None,
    }
}

// A number and nothing else.
fn parse_rotate<'a>(tokens: &'a [Token<'a>]) -> Parsed<'a>
    requires { AreTokens (tokens_of tokens.now) }
    ensures { ParsesBehind result (OfGoals GoalKind.Rotate) (tokens_of tokens.now) }
{
    match only_number(tokens) {
        Some(turns) => Ok(Command::Rotate(turns)),
        None => Err(ReadError::Syntax),
    }
}

/// The argument of a command of the goal stack.
pub fn parse_goal_command<'a>(alloc: Global, kind: GoalKind, tokens: &'a [Token<'a>]) -> Parsed<'a>
    requires { AreTokens (tokens_of tokens.now) }
    ensures { ParsesBehind result (OfGoals kind) (tokens_of tokens.now) }
{
    match kind {
        GoalKind::Goal => parse_goal(alloc, tokens),
        GoalKind::Expand => parse_expand(alloc, tokens),
        GoalKind::Back => parse_back(tokens),
        GoalKind::Print => parse_print(tokens),
        GoalKind::Rotate => parse_rotate(tokens),
    }
}

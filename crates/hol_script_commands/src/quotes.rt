// Quoted terms, read from the front of tokens.
ghost use Rattle.hol_syntax_grammar.specs.Views.{tokens_of};
ghost use Rattle.hol_tactic_grammar.specs.Tokens.{AreTokens};
ghost use Rattle.hol_script_commands.specs.Reading.{ParsesQuote, TakesQuotes, ParsesQuotes, ParsesOnlyQuote, ParsesConversion};

use crate::tokens::take_quote;
use hol_syntax_grammar::{ReadError, TermStep, Token, parse_term};
use hol_tactic_exprs::Conv;
use hol_tactic_grammar::conversion_of;
use std::alloc::Global;

// The term between two backquotes at the front, and what follows them.
fn parse_quote<'a>(
    alloc: Global,
    tokens: &'a [Token<'a>],
) -> Result<(Vec<TermStep<'a>>, &'a [Token<'a>]), ReadError>
    ensures { ParsesQuote result (tokens_of tokens.now) }
{
    let Some((inner, rest)) = take_quote(tokens) else {
        return Err(ReadError::Syntax);
    };
    Ok((parse_term(alloc, inner)?, rest))
}

// Takes so many quoted terms at the front, and answers what follows them.
fn take_quotes<'a>(
    alloc: Global,
    count: usize,
    tokens: &'a [Token<'a>],
    terms: &mut Vec<Vec<TermStep<'a>>>,
) -> Result<&'a [Token<'a>], ReadError>
    ensures { TakesQuotes result count terms.old.items terms.new.items (tokens_of tokens.now) }
{
    if count == 0 {
        return Ok(tokens);
    }
    let (steps, rest) = parse_quote(alloc, tokens)?;
    terms.push(steps)?;
    take_quotes(alloc, count - 1, rest, terms)
}

/// So many quoted terms at the front, and what follows them.
pub fn parse_quotes<'a>(
    alloc: Global,
    count: usize,
    tokens: &'a [Token<'a>],
) -> Result<(Vec<Vec<TermStep<'a>>>, &'a [Token<'a>]), ReadError>
    ensures { ParsesQuotes result count (tokens_of tokens.now) }
{
    let mut terms = Vec::new(alloc);
    let rest = take_quotes(alloc, count, tokens, &mut terms)?;
    Ok((terms, rest))
}

/// A quoted term and nothing else.
pub fn parse_only_quote<'a>(
    alloc: Global,
    tokens: &'a [Token<'a>],
) -> Result<Vec<TermStep<'a>>, ReadError>
    ensures { ParsesOnlyQuote result (tokens_of tokens.now) }
{
    let (steps, rest) = parse_quote(alloc, tokens)?;
    if !rest.is_empty() {
        return Err(ReadError::Syntax);
    }
    Ok(steps)
}

/// A conversion, a quoted term and nothing else.
pub fn parse_conversion_and_quote<'a>(
    alloc: Global,
    tokens: &'a [Token<'a>],
) -> Result<(Conv, Vec<TermStep<'a>>), ReadError>
    requires { AreTokens (tokens_of tokens.now) }
    ensures { ParsesConversion result (tokens_of tokens.now) }
{
    let (conversion, count) = conversion_of(alloc, tokens)?;
    let steps = parse_only_quote(alloc, &tokens[count..])?;
    Ok((conversion, steps))
}

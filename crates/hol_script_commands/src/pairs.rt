// Lists of replacements, read from tokens: pairs (new, old) of quoted parts in brackets.
ghost use Rattle.std.specs.Prelude.{◌≡◌, map};
ghost use Rattle.hol_syntax_grammar.specs.Views.{tokens_of};
ghost use Rattle.hol_script_commands.specs.Pairs.{parts_of, TakesPair, TakesEmpty, TakesPairs, TakesTypeVariable, ParsesTermPair, ParsesTypePair, ParsesTermPairs, ParsesTypePairs};

use crate::tokens::{take_mark, take_quote};
use hol_model::{Symbol, is_type_variable_name};
use hol_syntax::{identifier, parse_type};
use hol_syntax_grammar::{ReadError, TermStep, Token, TypeStep, parse_term};
use std::alloc::Global;

/// What stands between the backquotes of a pair.
#[derive(Clone, Copy, Drop)]
pub(crate) struct QuotedPair<'a> {
    new: &'a [Token<'a>],
    old: &'a [Token<'a>],
}

/// A term and what it replaces, by their steps.
#[derive(Drop)]
pub struct TermPair<'a> {
    pub new: Vec<TermStep<'a>>,
    pub old: Vec<TermStep<'a>>,
}

/// A type by its steps, and the type variable that it replaces.
#[derive(Drop)]
pub struct TypePair<'a> {
    pub new: Vec<TypeStep<'a>>,
    pub old: &'a str,
}

// The pair behind a mark at the front of the tokens, and how many tokens the two are.
fn take_pair<'a>(tokens: &'a [Token<'a>], opening: Symbol) -> Option<(QuotedPair<'a>, usize)>
    ensures { TakesPair result opening tokens.now }
{
    let quote = take_mark(tokens, opening)?;
    let (new, further) = take_quote(quote)?;
    let quote = take_mark(further, Symbol::Comma)?;
    let (old, rest) = take_quote(quote)?;
    Some((QuotedPair { new, old }, tokens.len() - rest.len()))
}

// What follows an empty list in brackets.
fn take_empty<'a>(tokens: &'a [Token<'a>]) -> Option<&'a [Token<'a>]>
    ensures { TakesEmpty result (tokens_of tokens.now) }
{
    let inner = take_mark(tokens, Symbol::OpenBracket)?;
    take_mark(inner, Symbol::CloseBracket)
}

/// The pairs of a list in brackets at the front of the tokens, and what follows the list.
pub(crate) fn take_pairs<'a>(
    alloc: Global,
    tokens: &'a [Token<'a>],
) -> Result<(Vec<QuotedPair<'a>>, &'a [Token<'a>]), ReadError>
    ensures { TakesPairs result (tokens_of tokens.now) }
{
    let mut pairs = Vec::new(alloc);
    if let Some(rest) = take_empty(tokens) {
        return Ok((pairs, rest));
    }
    let Some((first, mut at)) = take_pair(tokens, Symbol::OpenBracket) else {
        return Err(ReadError::Syntax);
    };
    pairs.push(first)?;
    while let Some((pair, count)) = take_pair(&tokens[at..], Symbol::Semicolon) {
        pairs.push(pair)?;
        at += count;
    }
    match take_mark(&tokens[at..], Symbol::CloseBracket) {
        Some(rest) => Ok((pairs, rest)),
        None => Err(ReadError::Syntax),
    }
}

// The terms of a pair.
fn parse_term_pair<'a>(alloc: Global, pair: &QuotedPair<'a>) -> Result<TermPair<'a>, ReadError>
    ensures { ParsesTermPair result (parts_of pair.now) }
{
    let new = parse_term(alloc, pair.new)?;
    let old = parse_term(alloc, pair.old)?;
    Ok(TermPair { new, old })
}

/// The terms of pairs.
pub(crate) fn parse_term_pairs<'a>(
    alloc: Global,
    pairs: &[QuotedPair<'a>],
) -> Result<Vec<TermPair<'a>>, ReadError>
    ensures { ParsesTermPairs result (map parts_of pairs.now) }
{
    let mut parsed = Vec::new(alloc);
    for pair in pairs {
        let terms = parse_term_pair(alloc, pair)?;
        parsed.push(terms)?;
    }
    Ok(parsed)
}

// The type variable that the tokens are.
fn type_variable<'a>(tokens: &'a [Token<'a>]) -> Option<&'a str>
    ensures { TakesTypeVariable result (tokens_of tokens.now) }
{
    match tokens {
        [Token::Name(bytes)] => {
            if is_type_variable_name(bytes) {
                identifier(bytes)
            } else {
                None
            }
        }
        _ => None,
    }
}

// The type and the type variable of a pair.
fn parse_type_pair<'a>(alloc: Global, pair: &QuotedPair<'a>) -> Result<TypePair<'a>, ReadError>
    ensures { ParsesTypePair result (parts_of pair.now) }
{
    let Some(old) = type_variable(pair.old) else {
        return Err(ReadError::Syntax);
    };
    let new = parse_type(alloc, pair.new)?;
    Ok(TypePair { new, old })
}

/// The types and the type variables of pairs.
pub(crate) fn parse_type_pairs<'a>(
    alloc: Global,
    pairs: &[QuotedPair<'a>],
) -> Result<Vec<TypePair<'a>>, ReadError>
    ensures { ParsesTypePairs result (map parts_of pairs.now) }
{
    let mut parsed = Vec::new(alloc);
    for pair in pairs {
        let types = parse_type_pair(alloc, pair)?;
        parsed.push(types)?;
    }
    Ok(parsed)
}

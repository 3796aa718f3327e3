// Conversions, read from tokens: one loop over the places that are open around a unit.
ghost use Rattle.std.specs.Prelude.{◌≡◌, ℕ, ◌+◌, ◌<◌, ◌∷◌, length, reverse};
ghost use Rattle.hol_model.specs.Texts.Token.{Name};
ghost use Rattle.hol_model_sessions.specs.SessionTools.{in_order, either};
ghost use Rattle.hol_tactic_exprs.specs.Expressions.{conversion_of, conversions_of};
ghost use Rattle.hol_syntax_grammar.specs.Views.{tokens_of};
ghost use Rattle.hol_tactic_grammar.specs.declared.conversions.Open.TheVariants.{Enclosed};
ghost use Rattle.hol_tactic_grammar.specs.Tokens.{AreTokens, IsAt};
ghost use Rattle.hol_tactic_grammar.specs.ConversionWords.{single_word};
ghost use Rattle.hol_tactic_grammar.specs.Conversions.{Means, ReadsUnit, ReadsConversion};
ghost use Rattle.hol_tactic_grammar.specs.OpenConversions.{IsWanted, IsRead, IsReadChoice, Leads, Enters};

use crate::conversion_words::{Single, prefix_named, single_named};
use crate::tokens::{Read, is_mark, is_word, name_at, read_name};
use hol_model::{EXPRESSION_NESTING_LIMIT, Symbol};
use hol_syntax_grammar::{ReadError, Token};
use hol_tactic_exprs::{Conv, Prefix};
use std::alloc::Global;

// Where a unit stands, as long as it is read.
#[derive(Drop)]
enum Open {
    // Behind a conversional.
    Prefixed(Prefix),
    // In parentheses, behind these of a chain of THENC and these units of its last chain of ORELSEC.
    Enclosed { parts: Vec<Conv>, units: Vec<Conv> },
}

// What is done next.
#[derive(Drop)]
enum Step {
    // A unit is read at the place.
    Begin(usize),
    // The innermost open place is closed around a unit, which was read up to the place.
    Close(Conv, usize),
    // The unit that was wanted was read up to the place.
    End(Conv, usize),
}

// The first, or all of them by ORELSEC.
fn either(alloc: Global, first: Conv, others: Vec<Conv>) -> Read<Conv>
    ensures { Means result (either (conversion_of first) (conversions_of others.items)) }
{
    if others.is_empty() {
        return Ok(first);
    }
    match Conv::orelsec(alloc, first, others) {
        Ok(conv) => Ok(conv),
        Err(_) => Err(ReadError::Memory),
    }
}

// The first, or all of them by THENC.
fn in_order(alloc: Global, first: Conv, others: Vec<Conv>) -> Read<Conv>
    ensures { Means result (in_order (conversion_of first) (conversions_of others.items)) }
{
    if others.is_empty() {
        return Ok(first);
    }
    match Conv::thenc(alloc, first, others) {
        Ok(conv) => Ok(conv),
        Err(_) => Err(ReadError::Memory),
    }
}

// A conversion without parts.
fn read_leaf(alloc: Global, tokens: &[Token<'_>], at: usize, single: Single) -> Read<(Conv, usize)>
    requires tokens { AreTokens (tokens_of tokens.now) }
    requires front { IsAt (Name (single_word single)) at tokens.now }
    ensures { (room : ℕ) → ReadsUnit result at room tokens.now }
{
    match single {
        Single::All => Ok((Conv::All, at + 1)),
        Single::No => Ok((Conv::No, at + 1)),
        Single::Beta => Ok((Conv::Beta, at + 1)),
        Single::Rewr => Ok((Conv::Rewr(read_name(alloc, tokens, at + 1)?), at + 2)),
        Single::Host => Ok((Conv::Host(read_name(alloc, tokens, at + 1)?), at + 2)),
    }
}

// The first, and the others.
fn parted(mut parts: Vec<Conv>) -> (Conv, Vec<Conv>)
    requires { 0 < length parts.items }
    ensures { result.0 ∷ result.1.items ≡ parts.items }
{
    let first = parts.remove(0);
    (first, parts)
}

// Opens a place, behind whose front a unit is wanted, unless as many are open as may be.
fn enter(places: &mut Vec<Open>, place: Open, next: usize, limit: usize) -> Read<Step>
    ensures { Enters result place next limit (reverse places.old.items) (reverse places.new.items) }
{
    if places.len() >= limit {
        return Err(ReadError::Syntax);
    }
    places.push(place)?;
    Ok(Step::Begin(next))
}

// Reads a unit without parts, or goes into one with parts.
fn begin(
    alloc: Global,
    tokens: &[Token<'_>],
    places: &mut Vec<Open>,
    at: usize,
    limit: usize,
) -> Read<Step>
    requires { AreTokens (tokens_of tokens.now) }
    ensures { (start : ℕ) → IsWanted (reverse places.old.items) at start limit tokens.now
        → Leads result at (length (reverse places.old.items)) (reverse places.new.items) start limit tokens.now }
{
    if is_mark(tokens, at, Symbol::OpenParenthesis) {
        let place = Open::Enclosed {
            parts: Vec::new(alloc),
            units: Vec::new(alloc),
        };
        return enter(places, place, at + 1, limit);
    }
    let Some(word) = name_at(tokens, at) else {
        return Err(ReadError::Syntax);
    };
    if let Some(prefix) = prefix_named(word) {
        return enter(places, Open::Prefixed(prefix), at + 1, limit);
    }
    let Some(single) = single_named(word) else {
        return Err(ReadError::Syntax);
    };
    let (conv, next) = read_leaf(alloc, tokens, at, single)?;
    Ok(Step::Close(conv, next))
}

// Goes on behind a chain of ORELSEC in parentheses.
fn behind_choice(
    alloc: Global,
    tokens: &[Token<'_>],
    places: &mut Vec<Open>,
    mut parts: Vec<Conv>,
    choice: Conv,
    next: usize,
) -> Read<Step>
    requires { AreTokens (tokens_of tokens.now) }
    ensures { (start limit : ℕ) → IsReadChoice parts.items (reverse places.old.items) choice next start limit tokens.now
        → Leads result next (length (reverse places.old.items) + 1) (reverse places.new.items) start limit tokens.now }
{
    parts.push(choice)?;
    if is_word(tokens, next, "THENC") {
        places.push(Open::Enclosed {
            parts,
            units: Vec::new(alloc),
        })?;
        return Ok(Step::Begin(next + 1));
    }
    if !is_mark(tokens, next, Symbol::CloseParenthesis) {
        return Err(ReadError::Syntax);
    }
    let (first, others) = parted(parts);
    let conv = in_order(alloc, first, others)?;
    Ok(Step::Close(conv, next + 1))
}

// Goes on behind a unit in parentheses.
fn behind_unit(
    alloc: Global,
    tokens: &[Token<'_>],
    places: &mut Vec<Open>,
    parts: Vec<Conv>,
    mut units: Vec<Conv>,
    unit: Conv,
    next: usize,
) -> Read<Step>
    requires { AreTokens (tokens_of tokens.now) }
    ensures { (start limit : ℕ) → IsRead (Enclosed parts units ∷ reverse places.old.items) unit next start limit tokens.now
        → Leads result next (length (reverse places.old.items) + 1) (reverse places.new.items) start limit tokens.now }
{
    units.push(unit)?;
    if is_word(tokens, next, "ORELSEC") {
        places.push(Open::Enclosed { parts, units })?;
        return Ok(Step::Begin(next + 1));
    }
    let (first, others) = parted(units);
    let choice = either(alloc, first, others)?;
    behind_choice(alloc, tokens, places, parts, choice, next)
}

// Closes the innermost place around a unit.
fn close(
    alloc: Global,
    tokens: &[Token<'_>],
    places: &mut Vec<Open>,
    unit: Conv,
    next: usize,
) -> Read<Step>
    requires { AreTokens (tokens_of tokens.now) }
    ensures { (start limit : ℕ) → IsRead (reverse places.old.items) unit next start limit tokens.now
        → Leads result next (length (reverse places.old.items)) (reverse places.new.items) start limit tokens.now }
{
    match places.pop() {
        None => Ok(Step::End(unit, next)),
        Some(Open::Prefixed(prefix)) => match Conv::prefixed(alloc, prefix, unit) {
            Ok(conv) => Ok(Step::Close(conv, next)),
            Err(_) => Err(ReadError::Memory),
        },
        Some(Open::Enclosed { parts, units }) => {
            behind_unit(alloc, tokens, places, parts, units, unit, next)
        }
    }
}

/// What a conversional may stand before, at a place. At most as many parentheses and prefixes as there is room for nest in it.
pub fn read_unit(alloc: Global, tokens: &[Token<'_>], at: usize, room: usize) -> Read<(Conv, usize)>
    requires { AreTokens (tokens_of tokens.now) }
    ensures { ReadsUnit result at room tokens.now }
{
    let mut places = Vec::new(alloc);
    let mut step = Step::Begin(at);
    loop {
        match step {
            Step::Begin(place) => step = begin(alloc, tokens, &mut places, place, room)?,
            Step::Close(unit, place) => step = close(alloc, tokens, &mut places, unit, place)?,
            Step::End(conv, place) => return Ok((conv, place)),
        }
    }
}

/// The conversion at the front of the tokens, and how many tokens it is: one without parts, one behind a conversional, or one in
/// parentheses (HOL Light's equal.ml). Refused: Syntax where none stands there within the limit of nesting, Memory.
pub fn conversion_of(alloc: Global, tokens: &[Token<'_>]) -> Result<(Conv, usize), ReadError>
    requires { AreTokens (tokens_of tokens.now) }
    ensures { ReadsConversion result tokens.now }
{
    read_unit(alloc, tokens, 0, EXPRESSION_NESTING_LIMIT)
}

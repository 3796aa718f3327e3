// Lines read from their texts.
ghost use Rattle.std.specs.Prelude.{◌≡◌, List, ℕ, IfOk};
ghost use Rattle.std.specs.Option.{option_map};
ghost use Rattle.hol_logtext.specs.LineReading as reading;
ghost use Rattle.hol_model.specs.Logs.LogLine.LogLine.{theorem_line};
ghost use Rattle.hol_logtext.specs.Lines.{fields_in, line_in, IsLineRead, IsExact};

use crate::arguments::{
    both, is_word, name_and_number, no_field, numbers, one_name, one_number, two_numbers,
};
use crate::field::{number_in, split_fields};
use crate::line::{Line, Version};
use crate::rules::rule;
use hol_model::Cause;
use std::alloc::{AllocError, Global};

fn header<'a>(fields: &[&'a [u8]]) -> Option<Line<'a>>
    ensures { line_in result ≡ reading.header_of (fields_in fields.now) }
{
    match fields {
        [version] => {
            if is_word(*version, "1") {
                Some(Line::Header(Version::First))
            } else if is_word(*version, "2") {
                Some(Line::Header(Version::Second))
            } else {
                None
            }
        }
        _ => None,
    }
}

fn type_line<'a>(word: &[u8], fields: &[&'a [u8]]) -> Option<Line<'a>>
    ensures { line_in result ≡ reading.type_of_word word.now (fields_in fields.now) }
{
    if is_word(word, "v") {
        let name = one_name(fields)?;
        Some(Line::TypeVariable(name))
    } else if is_word(word, "b") {
        no_field(fields)?;
        Some(Line::Bool)
    } else if is_word(word, "f") {
        let (domain, codomain) = two_numbers(fields)?;
        Some(Line::FunctionType(domain, codomain))
    } else if is_word(word, "n") {
        let name = one_name(fields)?;
        Some(Line::DeclaredType(name))
    } else {
        None
    }
}

fn term_line<'a>(word: &[u8], fields: &[&'a [u8]]) -> Option<Line<'a>>
    ensures { line_in result ≡ reading.term_of_word word.now (fields_in fields.now) }
{
    if is_word(word, "v") {
        let (name, ty) = name_and_number(fields)?;
        Some(Line::Variable(name, ty))
    } else if is_word(word, "c") {
        let (name, ty) = name_and_number(fields)?;
        Some(Line::Constant(name, ty))
    } else if is_word(word, "a") {
        let (function, argument) = two_numbers(fields)?;
        Some(Line::Combination(function, argument))
    } else if is_word(word, "l") {
        let (variable, body) = two_numbers(fields)?;
        Some(Line::Abstraction(variable, body))
    } else {
        None
    }
}

fn claim_of<'a>(
    alloc: Global,
    name: &'a [u8],
    theorem: &[u8],
    conclusion: &[u8],
    hypotheses: &[&'a [u8]],
) -> Result<Option<Line<'a>>, AllocError>
    ensures { IfOk result (λ found. line_in found
        ≡ option_map reading.claim_of_parts (reading.parts_of_claim name.now theorem.now conclusion.now (fields_in hypotheses.now))) }
{
    let Some((name, theorem)) = both(name, theorem) else {
        return Ok(None);
    };
    let Some(conclusion) = number_in(conclusion) else {
        return Ok(None);
    };
    match numbers(alloc, hypotheses)? {
        Some(hypotheses) => Ok(Some(Line::Claim(name, theorem, conclusion, hypotheses))),
        None => Ok(None),
    }
}

fn claim<'a>(alloc: Global, fields: &[&'a [u8]]) -> Result<Option<Line<'a>>, AllocError>
    ensures { IfOk result (λ found. line_in found ≡ option_map reading.claim_of_parts (reading.claim_parts (fields_in fields.now))) }
{
    match fields {
        [name, theorem, conclusion, hypotheses @ ..] => {
            claim_of(alloc, *name, *theorem, *conclusion, hypotheses)
        }
        _ => Ok(None),
    }
}

fn theorem<'a>(alloc: Global, fields: &[&'a [u8]]) -> Result<Option<Line<'a>>, AllocError>
    ensures { IfOk result (λ found. line_in found ≡ option_map theorem_line (reading.by_word reading.rule_of_word (fields_in fields.now))) }
{
    let Some((word, arguments)) = fields.split_first() else {
        return Ok(None);
    };
    match rule(alloc, *word, arguments)? {
        Some(rule) => Ok(Some(Line::Theorem(rule))),
        None => Ok(None),
    }
}

fn type_form<'a>(fields: &[&'a [u8]]) -> Option<Line<'a>>
    ensures { line_in result ≡ reading.by_word reading.type_of_word (fields_in fields.now) }
{
    let (word, arguments) = fields.split_first()?;
    type_line(*word, arguments)
}

fn term_form<'a>(fields: &[&'a [u8]]) -> Option<Line<'a>>
    ensures { line_in result ≡ reading.by_word reading.term_of_word (fields_in fields.now) }
{
    let (word, arguments) = fields.split_first()?;
    term_line(*word, arguments)
}

// A line that needs no memory, by its first word.
fn short_line<'a>(word: &[u8], fields: &[&'a [u8]]) -> Option<Line<'a>>
    ensures { line_in result ≡ reading.short_of_word word.now (fields_in fields.now) }
{
    if is_word(word, "y") {
        type_form(fields)
    } else if is_word(word, "t") {
        term_form(fields)
    } else if is_word(word, "ny") {
        let name = one_name(fields)?;
        Some(Line::NewType(name))
    } else if is_word(word, "nc") {
        let (name, ty) = name_and_number(fields)?;
        Some(Line::NewConstant(name, ty))
    } else if is_word(word, "end") {
        let count = one_number(fields)?;
        Some(Line::End(count))
    } else if is_word(word, "holp-log") {
        header(fields)
    } else {
        None
    }
}

fn line<'a>(alloc: Global, word: &[u8], fields: &[&'a [u8]]) -> Result<Option<Line<'a>>, AllocError>
    ensures { IfOk result (λ found. line_in found ≡ reading.line_of_word word.now (fields_in fields.now)) }
{
    if is_word(word, "k") {
        theorem(alloc, fields)
    } else if is_word(word, "c") {
        claim(alloc, fields)
    } else {
        Ok(short_line(word, fields))
    }
}

fn read_fields<'a>(
    alloc: Global,
    fields: &[&'a [u8]],
) -> Result<Result<Line<'a>, Cause>, AllocError>
    ensures { IfOk result (λ answer. IsLineRead answer (reading.line_of_fields (fields_in fields.now))) }
{
    let Some((word, arguments)) = fields.split_first() else {
        return Ok(Err(Cause::Shape));
    };
    match line(alloc, *word, arguments)? {
        Some(line) => Ok(Ok(line)),
        None => Ok(Err(Cause::Shape)),
    }
}

/// The line whose text this is, without its line feed; `Shape` where it is the text of no line.
///
/// Refusals: no memory.
pub fn read_line(alloc: Global, text: &[u8]) -> Result<Result<Line<'_>, Cause>, AllocError>
    ensures read { IfOk result (λ answer. IsLineRead answer (reading.read_text text.now)) }
    ensures exact { IfOk result (λ answer. IsExact answer text.now) }
{
    let fields = split_fields(alloc, text)?;
    read_fields(alloc, &fields)
}

// The rules of theorem lines, read from their fields.
ghost use Rattle.std.specs.Prelude.{◌≡◌, IfOk};
ghost use Rattle.hol_logtext.specs.LineReading as reading;
ghost use Rattle.hol_logtext.specs.Lines.{fields_in, rule_in};

use crate::arguments::{
    is_word, name_and_number, no_field, number_and_pairs, one_number, two_numbers,
};
use crate::line::Rule;
use std::alloc::{AllocError, Global};

// A rule over two numbers.
fn pair_rule<'a>(word: &[u8], fields: &[&'a [u8]]) -> Option<Rule<'a>>
    ensures { rule_in result ≡ reading.pair_rule_of_word word.now (fields_in fields.now) }
{
    let (i, j) = two_numbers(fields)?;
    if is_word(word, "TRANS") {
        Some(Rule::Trans(i, j))
    } else if is_word(word, "MK_COMB") {
        Some(Rule::MkComb(i, j))
    } else if is_word(word, "ABS") {
        Some(Rule::Abs(i, j))
    } else if is_word(word, "EQ_MP") {
        Some(Rule::EqMp(i, j))
    } else if is_word(word, "DEDUCT") {
        Some(Rule::Deduct(i, j))
    } else {
        None
    }
}

// A rule over one number.
fn plain_rule<'a>(word: &[u8], fields: &[&'a [u8]]) -> Option<Rule<'a>>
    ensures { rule_in result ≡ reading.plain_rule_of_word word.now (fields_in fields.now) }
{
    if is_word(word, "REFL") {
        let t = one_number(fields)?;
        Some(Rule::Refl(t))
    } else if is_word(word, "BETA") {
        let t = one_number(fields)?;
        Some(Rule::Beta(t))
    } else if is_word(word, "ASSUME") {
        let t = one_number(fields)?;
        Some(Rule::Assume(t))
    } else {
        pair_rule(word, fields)
    }
}

// An axiom, a definition or a rule over numbers.
fn entry<'a>(word: &[u8], fields: &[&'a [u8]]) -> Option<Rule<'a>>
    ensures { rule_in result ≡ reading.entry_of_word word.now (fields_in fields.now) }
{
    if is_word(word, "ETA") {
        no_field(fields)?;
        Some(Rule::Eta)
    } else if is_word(word, "SELECT") {
        no_field(fields)?;
        Some(Rule::Select)
    } else if is_word(word, "DEF") {
        let (name, t) = name_and_number(fields)?;
        Some(Rule::Def(name, t))
    } else {
        plain_rule(word, fields)
    }
}

/// The rule of a theorem line, by its word and the fields behind it.
pub(crate) fn rule<'a>(
    alloc: Global,
    word: &[u8],
    fields: &[&'a [u8]],
) -> Result<Option<Rule<'a>>, AllocError>
    ensures { IfOk result (λ found. rule_in found ≡ reading.rule_of_word word.now (fields_in fields.now)) }
{
    if is_word(word, "INST") {
        match number_and_pairs(alloc, fields)? {
            Some((i, pairs)) => Ok(Some(Rule::Inst(i, pairs))),
            None => Ok(None),
        }
    } else if is_word(word, "INSTTYPE") {
        match number_and_pairs(alloc, fields)? {
            Some((i, pairs)) => Ok(Some(Rule::InstType(i, pairs))),
            None => Ok(None),
        }
    } else {
        Ok(entry(word, fields))
    }
}

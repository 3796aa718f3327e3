// What the fields behind a word say.
ghost use Rattle.std.specs.Prelude.{◌≡◌, ◌≤◌, length, map, IfOk};
ghost use Rattle.std.specs.Str.{bytes_eq};
ghost use Rattle.std.specs.Option.{option_map};
ghost use Rattle.hol_logtext.specs.LineReading as reading;
ghost use Rattle.hol_logtext.specs.Lines.{fields_in, text_in, name_and_number_in, numbers_in, number_and_pairs_in};

use crate::field::{name_in, number_in};
use std::alloc::{AllocError, Global};

/// Whether a field is this word.
pub(crate) fn is_word(field: &[u8], word: &str) -> bool
    ensures { result ≡ bytes_eq field.now word.now }
{
    field == word.as_bytes()
}

/// Something where there is no field.
pub(crate) fn no_field(fields: &[&[u8]]) -> Option<()>
    ensures { result ≡ reading.no_field (fields_in fields.now) }
{
    match fields {
        [] => Some(()),
        _ => None,
    }
}

/// The name that is the only field.
pub(crate) fn one_name<'a>(fields: &[&'a [u8]]) -> Option<&'a str>
    ensures { text_in result ≡ reading.one_name (fields_in fields.now) }
{
    match fields {
        [name] => name_in(*name),
        _ => None,
    }
}

/// The number that is the only field.
pub(crate) fn one_number(fields: &[&[u8]]) -> Option<u32>
    ensures { result ≡ reading.one_number (fields_in fields.now) }
{
    match fields {
        [number] => number_in(*number),
        _ => None,
    }
}

// Both numbers of two fields.
fn both_numbers(first: &[u8], second: &[u8]) -> Option<(u32, u32)>
    ensures { result ≡ reading.both_numbers first.now second.now }
{
    match (number_in(first), number_in(second)) {
        (Some(first), Some(second)) => Some((first, second)),
        _ => None,
    }
}

/// The two numbers that are the fields.
pub(crate) fn two_numbers(fields: &[&[u8]]) -> Option<(u32, u32)>
    ensures { result ≡ reading.two_numbers (fields_in fields.now) }
{
    match fields {
        [first, second] => both_numbers(*first, *second),
        _ => None,
    }
}

/// The name and the number of two fields.
pub(crate) fn both<'a>(name: &'a [u8], number: &[u8]) -> Option<(&'a str, u32)>
    ensures { name_and_number_in result ≡ reading.both_kinds name.now number.now }
{
    match (name_in(name), number_in(number)) {
        (Some(name), Some(number)) => Some((name, number)),
        _ => None,
    }
}

/// The name and the number that are the fields.
pub(crate) fn name_and_number<'a>(fields: &[&'a [u8]]) -> Option<(&'a str, u32)>
    ensures { name_and_number_in result ≡ reading.name_and_number (fields_in fields.now) }
{
    match fields {
        [name, number] => both(*name, *number),
        _ => None,
    }
}

/// The numbers that the fields are.
pub(crate) fn numbers(alloc: Global, fields: &[&[u8]]) -> Result<Option<Vec<u32>>, AllocError>
    ensures { IfOk result (λ found. numbers_in found ≡ reading.numbers_of (fields_in fields.now)) }
{
    let mut numbers = Vec::new(alloc);
    let mut at = 0;
    while at < fields.len() {
        let Some(number) = number_in(fields[at]) else {
            return Ok(None);
        };
        numbers.push(number)?;
        at += 1;
    }
    Ok(Some(numbers))
}

/// The pairs of numbers that the fields are.
pub(crate) fn pairs(alloc: Global, fields: &[&[u8]]) -> Result<Option<Vec<(u32, u32)>>, AllocError>
    ensures { IfOk result (λ found. numbers_in found ≡ reading.pairs_of (fields_in fields.now)) }
{
    let mut pairs = Vec::new(alloc);
    let mut at = 0;
    while at + 1 < fields.len() {
        let Some(pair) = both_numbers(fields[at], fields[at + 1]) else {
            return Ok(None);
        };
        pairs.push(pair)?;
        at += 2;
    }
    if at == fields.len() {
        Ok(Some(pairs))
    } else {
        Ok(None)
    }
}

/// The number and the pairs of numbers that the fields are.
pub(crate) fn number_and_pairs(
    alloc: Global,
    fields: &[&[u8]],
) -> Result<Option<(u32, Vec<(u32, u32)>)>, AllocError>
    ensures { IfOk result (λ found. number_and_pairs_in found ≡ reading.number_and_pairs (fields_in fields.now)) }
{
    let Some((number, rest)) = fields.split_first() else {
        return Ok(None);
    };
    let Some(number) = number_in(*number) else {
        return Ok(None);
    };
    match pairs(alloc, rest)? {
        Some(pairs) => Ok(Some((number, pairs))),
        None => Ok(None),
    }
}

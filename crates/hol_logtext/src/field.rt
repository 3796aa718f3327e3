// The fields of a line.
ghost use Rattle.std.specs.Prelude.{◌≡◌, ◌+◌, ◌≤◌, ◌<◌, ◌++◌, ◌∷◌, false, length, Some, None, IfOk, IfErr, MatchOption};
ghost use Rattle.std.specs.List.{list_any};
ghost use Rattle.std.specs.Option.{option_map};
ghost use Rattle.hol_model.specs.declared.fault.Cause.TheVariants.{Shape};
ghost use Rattle.hol_logtext.specs.Fields.{IsCut, has_space, split_fields, number_of, name_of};
ghost use Rattle.hol_logtext.specs.Fields as fields;
ghost use Rattle.hol_logtext.specs.Lines.{fields_in, text_in};

use hol_model::Cause;
use itoa::Buffer;
use std::alloc::{AllocError, Global};

// The field before the first space and what stands behind it, where there is one.
fn cut(text: &[u8]) -> Option<(&[u8], &[u8])>
    ensures { MatchOption result (has_space text.now ≡ false) (λ parts. IsCut text.now parts.0.now parts.1.now) }
{
    let mut at = 0;
    while at < text.len() {
        if text[at] == b' ' {
            return Some((&text[..at], &text[at + 1..]));
        }
        at += 1;
    }
    None
}

/// The fields of a line, between its spaces.
pub(crate) fn split_fields(alloc: Global, text: &[u8]) -> Result<Vec<&[u8]>, AllocError>
    ensures { IfOk result (λ fields. fields_in fields.items ≡ split_fields text.now) }
{
    let mut fields = Vec::new(alloc);
    let mut rest = text;
    while let Some((field, behind)) = cut(rest) {
        fields.push(field)?;
        rest = behind;
    }
    fields.push(rest)?;
    Ok(fields)
}

/// The number that a field writes, where it writes one.
pub(crate) fn number_in(field: &[u8]) -> Option<u32>
    ensures { result ≡ number_of field.now }
{
    let Ok(text) = str::from_utf8(field) else {
        return None;
    };
    let Ok(number) = text.parse::<u32>() else {
        return None;
    };
    let mut buffer = Buffer::new();
    if buffer.format(number).as_bytes() == field {
        Some(number)
    } else {
        None
    }
}

fn is_name_byte(byte: u8) -> bool
    ensures { result ≡ fields.is_name_byte byte }
{
    33 <= byte && byte <= 126
}

fn all_name_bytes(bytes: &[u8]) -> bool
    ensures { result ≡ fields.all_name_bytes bytes.now }
{
    bytes.iter().all(|byte| is_name_byte(*byte))
}

// Whether a field is a run of bytes 33 to 126, at least one.
fn is_log_name(field: &[u8]) -> bool
    ensures { result ≡ fields.is_log_name field.now }
{
    match field {
        [] => false,
        [first, rest @ ..] => is_name_byte(*first) && all_name_bytes(rest),
    }
}

/// The name that a field is, where it is one.
pub(crate) fn name_in(field: &[u8]) -> Option<&str>
    ensures { text_in result ≡ name_of field.now }
{
    if !is_log_name(field) {
        return None;
    }
    match str::from_utf8(field) {
        Ok(text) => Some(text),
        Err(_) => None,
    }
}

/// The number that a field writes: digits without leading zeros, up to 4,294,967,295. Any other field is refused as Shape.
pub fn read_number(field: &[u8]) -> Result<u32, Cause>
    ensures ok { IfOk result (λ number. number_of field.now ≡ Some number) }
    ensures err { IfErr result (λ cause. (cause ≡ Shape) × (number_of field.now ≡ None)) }
{
    number_in(field).ok_or(Cause::Shape)
}

/// The name that a field is: a run of bytes 33 to 126, at least one. Any other field is refused as Shape.
pub fn read_name(field: &[u8]) -> Result<&str, Cause>
    ensures ok { IfOk result (λ name. name_of field.now ≡ Some name.now) }
    ensures err { IfErr result (λ cause. (cause ≡ Shape) × (name_of field.now ≡ None)) }
{
    name_in(field).ok_or(Cause::Shape)
}

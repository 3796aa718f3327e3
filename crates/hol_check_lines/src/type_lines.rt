// The lines of types.
ghost use Rattle.hol_model.specs.Logs.LogLine.{type_variable_line, bool_line, function_type_line, declared_type_line};
ghost use Rattle.hol_check_rules.specs.State.{IsContents};
ghost use Rattle.hol_check_rules.specs.Judged.{Judges};

use crate::judge::Judged;
use hol_check_rules::known::is_declared;
use hol_check_rules::state::{Addition, Contents, is_of_first_version, type_at};
use hol_check_terms::terms::Terms;
use hol_model::{Cause, Fault, is_declared_type_name, is_type_variable_name};

/// A type variable: `name` where the name is none of a type variable.
pub(crate) fn judge_type_variable(terms: &mut Terms, contents: &Contents, name: &[u8]) -> Judged
    requires { IsContents terms.old contents.now }
    ensures { Judges (type_variable_line name.now) contents.now terms.old result terms.new }
{
    if !is_type_variable_name(name) {
        return Ok(Err(Cause::Name));
    }
    let number = terms.type_variable(name)?;
    Ok(Ok(Addition::TypeNumber(number)))
}

/// The type of formulas, which is never refused.
pub(crate) fn judge_bool(terms: &mut Terms, contents: &Contents) -> Judged
    requires { IsContents terms.old contents.now }
    ensures { Judges bool_line contents.now terms.old result terms.new }
{
    let _contents = contents;
    let number = terms.boolean()?;
    Ok(Ok(Addition::TypeNumber(number)))
}

/// A function type: `number` where a part is not there, `large` where the type has too many nodes.
pub(crate) fn judge_function_type(
    terms: &mut Terms,
    contents: &Contents,
    domain: u32,
    codomain: u32,
) -> Judged
    requires { IsContents terms.old contents.now }
    ensures { Judges (function_type_line domain codomain) contents.now terms.old result terms.new }
{
    let (Some(a), Some(b)) = (type_at(contents, domain), type_at(contents, codomain)) else {
        return Ok(Err(Cause::Number));
    };
    let made = terms.function_type(a, b);
    if let Err(Fault::TooLarge) = made {
        return Ok(Err(Cause::Large));
    }
    let number = made?;
    Ok(Ok(Addition::TypeNumber(number)))
}

/// A declared type: `shape` in a log of the first version, `name` where the name is none of a declared type, `type`
/// where no such type was declared.
pub(crate) fn judge_declared_type(terms: &mut Terms, contents: &Contents, name: &[u8]) -> Judged
    requires { IsContents terms.old contents.now }
    ensures { Judges (declared_type_line name.now) contents.now terms.old result terms.new }
{
    if is_of_first_version(contents) {
        return Ok(Err(Cause::Shape));
    }
    if !is_declared_type_name(name) {
        return Ok(Err(Cause::Name));
    }
    let number = terms.name(name)?;
    if !is_declared(terms, &contents.known, number) {
        return Ok(Err(Cause::Kind));
    }
    let ty = terms.declared_type(name)?;
    Ok(Ok(Addition::TypeNumber(ty)))
}

// The lines of terms.
ghost use Rattle.hol_model.specs.Terms.NamedTerm.{NamedTerm};
ghost use Rattle.hol_model.specs.Logs.LogLine.{variable_line, constant_line, combination_line, abstraction_line};
ghost use Rattle.hol_check_terms.specs.Terms.{TermTable};
ghost use Rattle.hol_check_written.specs.Written.{IsWrittenAnswer};
ghost use Rattle.hol_check_written.specs.declared.written.WrittenShape as shape;
ghost use Rattle.hol_check_rules.specs.State.{IsContents};
ghost use Rattle.hol_check_rules.specs.Judged.{Judges};
ghost use Rattle.hol_check_lines.specs.TermLines.{AnswersTerm};

use crate::judge::Judged;
use hol_check_changes::forming::{takes, variable};
use hol_check_rules::known::knows_constant;
use hol_check_rules::state::{Addition, Contents, type_at, written_at};
use hol_check_terms::terms::Terms;
use hol_check_written::written::{
    Written, WrittenShape, write_abstraction, write_combination, write_constant, write_variable,
};
use hol_model::{Cause, Fault, is_constant_name, is_identifier};

/// A variable: `number` where its type is not there, `name` where its name is no identifier.
pub(crate) fn judge_variable(terms: &mut Terms, contents: &Contents, name: &[u8], ty: u32) -> Judged
    requires { IsContents terms.old contents.now }
    ensures { Judges (variable_line name.now ty) contents.now terms.old result terms.new }
{
    let Some(named) = type_at(contents, ty) else {
        return Ok(Err(Cause::Number));
    };
    if !is_identifier(name) {
        return Ok(Err(Cause::Name));
    }
    let number = variable(terms, name, named)?;
    judge_written(write_variable(terms, number))
}

/// A constant: `number` where its type is not there, `name` where its name is none of a constant, `const` where it is
/// not known at that type.
pub(crate) fn judge_constant(terms: &mut Terms, contents: &Contents, name: &[u8], ty: u32) -> Judged
    requires { IsContents terms.old contents.now }
    ensures { Judges (constant_line name.now ty) contents.now terms.old result terms.new }
{
    let Some(named) = type_at(contents, ty) else {
        return Ok(Err(Cause::Number));
    };
    if !is_constant_name(name) {
        return Ok(Err(Cause::Name));
    }
    let number = terms.name(name)?;
    if !knows_constant(terms, &contents.known, number, named) {
        return Ok(Err(Cause::Const));
    }
    let constant = terms.constant(number, named)?;
    judge_written(write_constant(terms, constant))
}

/// A combination: `number` where a part is not there, `type` where the function does not take the argument, `large`
/// where the term passes a limit.
pub(crate) fn judge_combination(
    terms: &Terms,
    contents: &Contents,
    function: u32,
    argument: u32,
) -> Judged
    requires { IsContents terms.now contents.now }
    ensures { Judges (combination_line function argument) contents.now terms.now result terms.now }
{
    let (Some(f), Some(a)) = (
        written_at(contents, function),
        written_at(contents, argument),
    ) else {
        return Ok(Err(Cause::Number));
    };
    if !takes(terms, f.ty, a.ty) {
        return Ok(Err(Cause::Kind));
    }
    judge_written(write_combination(terms, function as usize, argument as usize, f, a))
}

/// An abstraction: `number` where a part is not there, `type` where the binder is no variable, `large` where the term
/// passes a limit.
pub(crate) fn judge_abstraction(
    terms: &mut Terms,
    contents: &Contents,
    binder: u32,
    body: u32,
) -> Judged
    requires { IsContents terms.old contents.now }
    ensures { Judges (abstraction_line binder body) contents.now terms.old result terms.new }
{
    let (Some(v), Some(b)) = (written_at(contents, binder), written_at(contents, body)) else {
        return Ok(Err(Cause::Number));
    };
    match v.shape {
        WrittenShape::Variable(number) => {
            judge_written(write_abstraction(terms, number, body as usize, b))
        }
        WrittenShape::Constant(_number) => Ok(Err(Cause::Kind)),
        WrittenShape::Application(_function, _argument) => Ok(Err(Cause::Kind)),
        WrittenShape::Abstraction(_binder, _body) => Ok(Err(Cause::Kind)),
    }
}

// What a line adds that a term was written for.
fn judge_written(written: Result<Written, Fault>) -> Judged
    ensures { (term : NamedTerm) (shape : shape.WrittenShape) (table : TermTable) → IsWrittenAnswer table term shape written → AnswersTerm term shape result table }
{
    match written {
        Ok(line) => Ok(Ok(Addition::TermLine(line))),
        Err(Fault::TooLarge) => Ok(Err(Cause::Large)),
        Err(_fault) => Err(Fault::Memory),
    }
}

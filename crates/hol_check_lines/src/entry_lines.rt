// The lines of declared types and constants.
ghost use Rattle.std.specs.Prelude.{◌≡◌, IfOk, IfErr};
ghost use Rattle.hol_model.specs.declared.fault.Fault.TheVariants.{Memory};
ghost use Rattle.hol_model.specs.Logs.LogLine.{new_type_line, new_constant_line};
ghost use Rattle.hol_check_terms.specs.Terms.{IsGrown};
ghost use Rattle.hol_check_rules.specs.State.{theory_in, IsContents};
ghost use Rattle.hol_check_rules.specs.Judged.{Judges};
ghost use Rattle.hol_check_lines.specs.NewNames.{FindsNewName};

use crate::judge::Judged;
use hol_check_rules::known::is_new_name;
use hol_check_rules::state::{Addition, Contents, is_full, is_of_first_version, type_at};
use hol_check_terms::reflection::is_fixed;
use hol_check_terms::terms::Terms;
use hol_model::{Cause, Fault, is_constant_name, is_declared_type_name};

/// A new declared type: `shape` in a log of the first version, `name` where the name is none of a declared type or is
/// taken, `large` where the theory is full.
pub(crate) fn judge_new_type(terms: &mut Terms, contents: &Contents, name: &[u8]) -> Judged
    requires { IsContents terms.old contents.now }
    ensures { Judges (new_type_line name.now) contents.now terms.old result terms.new }
{
    if is_of_first_version(contents) {
        return Ok(Err(Cause::Shape));
    }
    let is_legal = is_declared_type_name(name);
    let Some(number) = new_name(terms, contents, name, is_legal)? else {
        return Ok(Err(Cause::Name));
    };
    if is_full(contents) {
        return Ok(Err(Cause::Large));
    }
    Ok(Ok(Addition::NewType(number)))
}

/// A new declared constant: `shape` in a log of the first version, `number` where its type is not there, `name` where
/// the name is none of a constant or is taken, `rule` where a type variable stands in the type, `large` where the
/// theory is full.
pub(crate) fn judge_new_constant(
    terms: &mut Terms,
    contents: &Contents,
    name: &[u8],
    ty: u32,
) -> Judged
    requires { IsContents terms.old contents.now }
    ensures { Judges (new_constant_line name.now ty) contents.now terms.old result terms.new }
{
    if is_of_first_version(contents) {
        return Ok(Err(Cause::Shape));
    }
    let Some(named) = type_at(contents, ty) else {
        return Ok(Err(Cause::Number));
    };
    let is_legal = is_constant_name(name);
    let Some(number) = new_name(terms, contents, name, is_legal)? else {
        return Ok(Err(Cause::Name));
    };
    if !is_fixed(terms, named) {
        return Ok(Err(Cause::Rule));
    }
    if is_full(contents) {
        return Ok(Err(Cause::Large));
    }
    Ok(Ok(Addition::NewConstant(number, named)))
}

/// The number of a new name, `None` where the name is not legal or is taken.
pub(crate) fn new_name(
    terms: &mut Terms,
    contents: &Contents,
    name: &[u8],
    is_legal: bool,
) -> Result<Option<usize>, Fault>
    requires { IsContents terms.old contents.now }
    ensures found { IfOk result (FindsNewName is_legal (theory_in terms.old contents.now.entries.items) name.now terms.new.names) }
    ensures refused { IfErr result (λ fault. fault ≡ Memory) }
    ensures grows { IsGrown terms.old terms.new }
{
    if !is_legal {
        return Ok(None);
    }
    let number = terms.name(name)?;
    if is_new_name(terms, &contents.known, number) {
        Ok(Some(number))
    } else {
        Ok(None)
    }
}

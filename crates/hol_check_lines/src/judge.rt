// What a line adds to a log, or why it is refused.
ghost use Rattle.std.specs.Prelude.{◌≡◌};
ghost use Rattle.hol_logtext.specs.Lines.{line_of};
ghost use Rattle.hol_check_rules.specs.State.{IsContents};
ghost use Rattle.hol_check_rules.specs.Judged.{Judges};
ghost use Rattle.hol_check_lines.specs.Named.{AreNamedMade};

use crate::claim_lines::judge_claim;
use crate::entry_lines::{judge_new_constant, judge_new_type};
use crate::step::judge_step;
use crate::term_lines::{judge_abstraction, judge_combination, judge_constant, judge_variable};
use crate::type_lines::{
    judge_bool, judge_declared_type, judge_function_type, judge_type_variable,
};
use hol_check_rules::state::{Addition, Contents};
use hol_check_terms::terms::Terms;
use hol_logtext::Line;
use hol_model::{Cause, Fault};

/// What a line adds, or the first cause for which it is refused. A fault tells of memory that is used up.
pub(crate) type Judged = Result<Result<Addition, Cause>, Fault>;

/// What a line adds, or the first cause for which it is refused, but for `end`.
pub(crate) fn judge(terms: &mut Terms, contents: &Contents, line: &Line<'_>) -> Judged
    requires contents { IsContents terms.old contents.now }
    requires made { AreNamedMade contents.now (line_of line.now) }
    ensures { Judges (line_of line.now) contents.now terms.old result terms.new }
{
    match line {
        Line::Header(_version) => Ok(Err(Cause::Shape)),
        Line::TypeVariable(name) => judge_type_variable(terms, contents, name.as_bytes()),
        Line::Bool => judge_bool(terms, contents),
        Line::FunctionType(a, b) => judge_function_type(terms, contents, *a, *b),
        Line::DeclaredType(name) => judge_declared_type(terms, contents, name.as_bytes()),
        Line::Variable(name, ty) => judge_variable(terms, contents, name.as_bytes(), *ty),
        Line::Constant(name, ty) => judge_constant(terms, contents, name.as_bytes(), *ty),
        Line::Combination(f, a) => judge_combination(terms, contents, *f, *a),
        Line::Abstraction(v, t) => judge_abstraction(terms, contents, *v, *t),
        Line::NewType(name) => judge_new_type(terms, contents, name.as_bytes()),
        Line::NewConstant(name, ty) => judge_new_constant(terms, contents, name.as_bytes(), *ty),
        Line::Theorem(rule) => judge_step(terms, contents, rule),
        Line::Claim(name, i, c, hs) => judge_claim(terms, contents, name.as_bytes(), *i, *c, hs),
        Line::End(_count) => Ok(Ok(Addition::Ended)),
    }
}

// What a conclusion is for rewriting.
ghost use Rattle.std.specs.Prelude.{◌≡◌};
ghost use Rattle.hol_rewrite.specs.Forms.{form_of};
ghost use Rattle.hol_model.specs.Rewrites.RewriteRules as spec;

use hol_terms::{Parts, Term};
use hol_types::Ty;

/// The form of a conclusion, with its parts.
#[derive(Clone, Copy)]
pub enum Form<'a> {
    // `p /\ q`.
    Both(&'a Term, &'a Term),
    // `!x. p`, by the variable's name and type and the body.
    Every(&'a str, &'a Ty, &'a Term),
    // `a = b`.
    Equal(&'a Term, &'a Term),
    // `~p`.
    Denied(&'a Term),
    // Another.
    Stated(&'a Term),
}

/// The form of a formula.
pub fn rule_form(formula: &Term) -> Form<'_>
    ensures { form_of result ≡ spec.rule_form formula.now }
{
    let Parts::Combination(function, argument) = formula.parts() else {
        return Form::Stated(formula);
    };
    match (function.parts(), argument.parts()) {
        (Parts::Combination(operator, left), _) => match operator.parts() {
            Parts::Constant(name, _) => {
                if name == "/\\" {
                    Form::Both(left, argument)
                } else if name == "=" {
                    Form::Equal(left, argument)
                } else {
                    Form::Stated(formula)
                }
            }
            _ => Form::Stated(formula),
        },
        (Parts::Constant(name, _), Parts::Abstraction(x, ty, body)) => {
            if name == "!" {
                Form::Every(x, ty, body)
            } else if name == "~" {
                Form::Denied(argument)
            } else {
                Form::Stated(formula)
            }
        }
        (Parts::Constant(name, _), _) => {
            if name == "~" {
                Form::Denied(argument)
            } else {
                Form::Stated(formula)
            }
        }
        _ => Form::Stated(formula),
    }
}

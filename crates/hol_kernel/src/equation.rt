// Equations, taken apart and made.
ghost use Rattle.std.specs.Prelude.{◌≡◌, IsSome, IfSome};
ghost use Rattle.std.specs.Option.{option_map, is_some};
ghost use Rattle.hol_model.specs.Terms.NamedTerm.{type_of};
ghost use Rattle.hol_model.specs.Terms.NamedTerm as spec;
ghost use Rattle.hol_model.specs.Kernel.Rules as rules;
ghost use Rattle.hol_model.specs.Kernel.Outcome.{Answers, unless};
ghost use Rattle.hol_model.specs.declared.fault.Fault.TheVariants.{TypeMismatch};

use hol_model::Fault;
use hol_terms::{Parts, Term, mk_eq, same_variable};
use std::alloc::Global;

/// An equation: `=` applied to its left side, `=`, and the sides.
#[derive(Clone, Copy)]
pub struct EquationParts<'a> {
    pub(crate) applied: &'a Term,
    pub relation: &'a Term,
    pub left: &'a Term,
    pub right: &'a Term,
}

/// The parts of the term, where it is an equation.
pub fn equation_parts(term: &Term) -> Option<EquationParts<'_>>
    ensures sides { option_map (λ parts. (parts.left.now, parts.right.now)) result ≡ rules.dest_equation term.now }
    ensures whole { IfSome result (λ parts. term.now ≡ spec.combination (spec.combination parts.relation.now parts.left.now) parts.right.now) }
    ensures applied { IfSome result (λ parts. parts.applied.now ≡ spec.combination parts.relation.now parts.left.now) }
{
    match term.parts() {
        Parts::Combination(applied, right) => match applied.parts() {
            Parts::Combination(relation, left) => match relation.parts() {
                Parts::Constant(name, _) => {
                    if name == "=" {
                        Some(EquationParts {
                            applied,
                            relation,
                            left,
                            right,
                        })
                    } else {
                        None
                    }
                }
                _ => None,
            },
            _ => None,
        },
        _ => None,
    }
}

/// The sides of an equation.
pub fn dest_eq(term: &Term) -> Option<(&Term, &Term)>
    ensures { option_map (λ sides. (sides.0.now, sides.1.now)) result ≡ rules.dest_equation term.now }
{
    let parts = equation_parts(term)?;
    Some((parts.left, parts.right))
}

/// The equation of two terms of one type.
pub fn equation(alloc: Global, left: &Term, right: &Term) -> Result<Term, Fault>
    requires { type_of left.now ≡ type_of right.now }
    ensures { Answers result (rules.limited (spec.equation left.now right.now)) }
{
    let _typed = left.ty();
    mk_eq(alloc, left, right)
}

/// A function applied to an argument.
pub fn application(alloc: Global, function: &Term, argument: &Term) -> Result<Term, Fault>
    ensures { Answers result (unless (is_some (type_of (spec.combination function.now argument.now))) TypeMismatch (rules.limited (spec.combination function.now argument.now))) }
{
    Term::mk_comb(alloc, function, argument)
}

/// A function applied to an argument of the type that it takes.
pub fn combination(alloc: Global, function: &Term, argument: &Term) -> Result<Term, Fault>
    requires { IsSome (type_of (spec.combination function.now argument.now)) }
    ensures { Answers result (rules.limited (spec.combination function.now argument.now)) }
{
    Term::mk_comb(alloc, function, argument)
}

/// The abstraction over a variable.
pub fn abstraction(alloc: Global, binder: &Term, body: &Term) -> Result<Term, Fault>
    ensures { Answers result (rules.abstraction_outcome binder.now body.now) }
{
    Term::mk_abs(alloc, binder, body)
}

/// The body of an abstraction that is applied to the very variable that it binds.
pub fn dest_trivial_redex(term: &Term) -> Option<&Term>
    ensures { option_map (λ body. body.now) result ≡ rules.dest_trivial_redex term.now }
{
    match term.parts() {
        Parts::Combination(function, argument) => match (function.parts(), argument.parts()) {
            (Parts::Abstraction(name, ty, body), Parts::Variable(other, s)) => {
                if same_variable(name, ty, other, s) {
                    Some(body)
                } else {
                    None
                }
            }
            _ => None,
        },
        _ => None,
    }
}

// Types and terms as data.
ghost use Rattle.hol_model.specs.Kernel.Outcome.{Answers};
ghost use Rattle.hol_prelude_derivations.specs.Sketches.{type_outcome, term_outcome};

use hol_model::Fault;
use hol_terms::{Term, mk_eq};
use hol_types::Ty;
use std::alloc::Global;

/// A type.
#[derive(Clone, Copy)]
pub enum TypeSketch<'a> {
    Variable(&'a str),
    Bool,
    /// The type of a connective, `bool -> bool -> bool`.
    Binary,
    Function(&'a TypeSketch<'a>, &'a TypeSketch<'a>),
}

/// A term.
#[derive(Clone, Copy)]
pub enum TermSketch<'a> {
    /// A variable of type `bool`.
    Formula(&'a str),
    Variable(&'a str, &'a TypeSketch<'a>),
    Constant(&'a str, &'a TypeSketch<'a>),
    Combination(&'a TermSketch<'a>, &'a TermSketch<'a>),
    /// The variable, and the body.
    Abstraction(&'a TermSketch<'a>, &'a TermSketch<'a>),
    Equation(&'a TermSketch<'a>, &'a TermSketch<'a>),
}

/// The type of the sketch.
pub(crate) fn type_of(alloc: Global, sketch: &TypeSketch<'_>) -> Result<Ty, Fault>
    ensures outcome { Answers result (type_outcome sketch.now) }
{
    match sketch {
        TypeSketch::Variable(name) => Ty::tyvar(alloc, name),
        TypeSketch::Bool => Ty::boolean(alloc),
        TypeSketch::Binary => {
            let boolean = Ty::boolean(alloc)?;
            let unary = Ty::fun(alloc, &boolean, &boolean)?;
            Ty::fun(alloc, &boolean, &unary)
        }
        TypeSketch::Function(domain, codomain) => {
            let domain = type_of(alloc, domain)?;
            let codomain = type_of(alloc, codomain)?;
            Ty::fun(alloc, &domain, &codomain)
        }
    }
}

/// The term of the sketch.
pub(crate) fn term_of(alloc: Global, sketch: &TermSketch<'_>) -> Result<Term, Fault>
    ensures outcome { Answers result (term_outcome sketch.now) }
{
    match sketch {
        TermSketch::Formula(name) => Term::mk_var(alloc, name, &Ty::boolean(alloc)?),
        TermSketch::Variable(name, ty) => Term::mk_var(alloc, name, &type_of(alloc, ty)?),
        TermSketch::Constant(name, ty) => Term::mk_const(alloc, name, &type_of(alloc, ty)?),
        TermSketch::Combination(function, argument) => {
            let function = term_of(alloc, function)?;
            let argument = term_of(alloc, argument)?;
            Term::mk_comb(alloc, &function, &argument)
        }
        TermSketch::Abstraction(variable, body) => {
            let variable = term_of(alloc, variable)?;
            let body = term_of(alloc, body)?;
            Term::mk_abs(alloc, &variable, &body)
        }
        TermSketch::Equation(left, right) => {
            let left = term_of(alloc, left)?;
            let right = term_of(alloc, right)?;
            mk_eq(alloc, &left, &right)
        }
    }
}

// The form that a term is printed in, by its outermost parts.
ghost use Rattle.std.specs.Prelude.{◌≡◌, ◌+◌, ◌<◌, ◌∷◌, ◌++◌, []};
ghost use Rattle.std.specs.Option.{option_map};
ghost use Rattle.hol_model.specs.Terms.NamedTerm.{combination};
ghost use Rattle.hol_model.specs.Texts.TermGrammar.{binder_symbol};
ghost use Rattle.hol_model.specs.Texts.Token.{symbol_text};
ghost use Rattle.hol_model.specs.Texts.Printing as printing;
ghost use Rattle.hol_model.specs.Texts.Printing.{term_tree};
ghost use Rattle.hol_model.specs.Texts.Reading as reading;
ghost use Rattle.hol_model.specs.Texts.Reading.{Bindings};
ghost use Rattle.hol_terms.specs.Term.{weight};
ghost use Rattle.hol_syntax_grammar.specs.Grammar.{infix_here, binder_here};
ghost use Rattle.hol_syntax.specs.Scope.{scope_of};
ghost use Rattle.hol_syntax_print.specs.Shape as spec;
ghost use Rattle.hol_syntax_print.specs.Innermost.{IsInnermost};
ghost use Rattle.hol_syntax_print.specs.Shape.{is_bound_at, prefix_here, shape_tree, shape_level, IsNamed, weight_of_parts};

use crate::innermost::Innermost;
use hol_model::is_identifier;
use hol_syntax::Scope;
use hol_syntax::builder::is_closed;
use hol_syntax_grammar::grammar::{Binder, Infix};
use hol_terms::{Parts, Term};
use hol_types::Ty;

/// What a constant is before one operand.
#[derive(Clone, Copy)]
pub enum Prefix {
    Negation,
    Quantifier(Binder),
    Nothing,
}

/// The form that a term is printed in.
#[derive(Clone, Copy)]
pub enum Shape<'a> {
    Variable(&'a str, &'a Ty),
    Constant(&'a str, &'a Ty),
    Apply(&'a Term, &'a Term),
    Not(&'a Term),
    Join(Infix, &'a Term, &'a Term),
    Bind(Binder, &'a str, &'a Ty, &'a Term),
}

/// Whether the innermost binder of the name has the type.
pub fn is_bound(binders: &Innermost<'_>, name: &str, ty: &Ty) -> bool
    ensures { (bindings : Bindings) → IsInnermost binders.now bindings → result ≡ is_bound_at bindings name.now ty.now }
{
    match binders.find(name) {
        Some(bound) => bound.eq(ty),
        None => false,
    }
}

/// Whether the constant's name alone says which constant it is.
pub fn is_bare_constant(scope: &Scope, binders: &Innermost<'_>, name: &str) -> bool
    ensures { (bindings : Bindings) → IsInnermost binders.now bindings → result ≡ spec.is_bare_constant (scope_of scope.now) bindings name.now }
{
    if !is_identifier(name.as_bytes()) {
        return false;
    }
    match scope.const_type(name) {
        Some(generic) => is_closed(generic) && binders.find(name).is_none(),
        None => false,
    }
}

// The types of the operands of a relation.
fn dest_relation(ty: &Ty) -> Option<(&Ty, &Ty)>
    ensures { option_map (λ parts. (parts.0.now, parts.1.now)) result ≡ spec.dest_relation ty.now }
{
    let (left, rest) = ty.dest_fun()?;
    let (right, answer) = rest.dest_fun()?;
    if answer.is_bool() {
        Some((left, right))
    } else {
        None
    }
}

// The type on which the predicates are that an operator takes, and the type of its answers.
fn dest_operator(ty: &Ty) -> Option<(&Ty, &Ty)>
    ensures { option_map (λ parts. (parts.0.now, parts.1.now)) result ≡ spec.dest_operator ty.now }
{
    let (predicate, answer) = ty.dest_fun()?;
    let (domain, truth) = predicate.dest_fun()?;
    if truth.is_bool() {
        Some((domain, answer))
    } else {
        None
    }
}

// The infix that `=` is at its type.
fn equality_infix(ty: &Ty) -> Option<Infix>
    ensures { option_map infix_here result ≡ printing.equality_infix ty.now }
{
    let (left, right) = dest_relation(ty)?;
    if left.is_bool() && right.is_bool() {
        Some(Infix::Iff)
    } else if right.eq(left) {
        Some(Infix::Equal)
    } else {
        None
    }
}

// The infix, where the type is that of the connectives between truth values.
fn truth_infix(ty: &Ty, operation: Infix) -> Option<Infix>
    ensures { option_map infix_here result ≡ printing.truth_infix ty.now (infix_here operation) }
{
    let (left, right) = dest_relation(ty)?;
    if left.is_bool() && right.is_bool() {
        Some(operation)
    } else {
        None
    }
}

// The infix that a constant is at its type.
fn infix_of(name: &str, ty: &Ty) -> Option<Infix>
    ensures { option_map infix_here result ≡ printing.infix_of name.now ty.now }
{
    match name.as_bytes() {
        [b'='] => equality_infix(ty),
        [b'=', b'=', b'>'] => truth_infix(ty, Infix::Implies),
        [b'\\', b'/'] => truth_infix(ty, Infix::Or),
        [b'/', b'\\'] => truth_infix(ty, Infix::And),
        _ => None,
    }
}

fn negation_prefix(ty: &Ty) -> Prefix
    ensures { prefix_here result ≡ printing.negation_prefix ty.now }
{
    match ty.dest_fun() {
        Some((operand, answer)) if operand.is_bool() && answer.is_bool() => Prefix::Negation,
        _ => Prefix::Nothing,
    }
}

fn quantifier_prefix(ty: &Ty, binder: Binder) -> Prefix
    ensures { prefix_here result ≡ printing.quantifier_prefix ty.now (binder_here binder) }
{
    match dest_operator(ty) {
        Some((_, answer)) if answer.is_bool() => Prefix::Quantifier(binder),
        _ => Prefix::Nothing,
    }
}

fn choice_prefix(ty: &Ty) -> Prefix
    ensures { prefix_here result ≡ printing.choice_prefix ty.now }
{
    match dest_operator(ty) {
        Some((domain, answer)) if answer.eq(domain) => Prefix::Quantifier(Binder::Choice),
        _ => Prefix::Nothing,
    }
}

// What a constant of this type is before one operand.
fn prefix_of(name: &str, ty: &Ty) -> Prefix
    ensures { prefix_here result ≡ printing.prefix_of name.now ty.now }
{
    match name.as_bytes() {
        [b'~'] => negation_prefix(ty),
        [b'!'] => quantifier_prefix(ty, Binder::ForAll),
        [b'?'] => quantifier_prefix(ty, Binder::Exists),
        [b'@'] => choice_prefix(ty),
        _ => Prefix::Nothing,
    }
}

// The form of a constant that is applied.
fn prefix_shape<'a>(prefix: Prefix, function: &'a Term, argument: &'a Term) -> Shape<'a>
    ensures tree { (scope : reading.Scope) (bindings : Bindings) → shape_tree scope bindings result
        ≡ printing.prefix_tree (prefix_here prefix) (term_tree scope bindings function.now) (term_tree scope bindings argument.now) }
    ensures named { IsNamed result }
    ensures parts { weight_of_parts result < weight function.now + weight argument.now + 1 }
{
    match prefix {
        Prefix::Negation => Shape::Not(argument),
        Prefix::Quantifier(binder) => match argument.parts() {
            Parts::Abstraction(name, ty, body) => Shape::Bind(binder, name, ty, body),
            _ => Shape::Apply(function, argument),
        },
        Prefix::Nothing => Shape::Apply(function, argument),
    }
}

// The form of a combination.
fn combination_shape<'a>(function: &'a Term, argument: &'a Term) -> Shape<'a>
    ensures tree { (scope : reading.Scope) (bindings : Bindings) → shape_tree scope bindings result
        ≡ term_tree scope bindings (combination function.now argument.now) }
    ensures named { IsNamed result }
    ensures parts { weight_of_parts result < weight function.now + weight argument.now + 1 }
{
    match function.parts() {
        Parts::Variable(_, _) => Shape::Apply(function, argument),
        Parts::Abstraction(_, _, _) => Shape::Apply(function, argument),
        Parts::Constant(name, ty) => prefix_shape(prefix_of(name, ty), function, argument),
        Parts::Combination(operator, left) => match operator.dest_const() {
            Some((name, ty)) => match infix_of(name, ty) {
                Some(operation) => Shape::Join(operation, left, argument),
                None => Shape::Apply(function, argument),
            },
            None => Shape::Apply(function, argument),
        },
    }
}

/// The form that a term is printed in.
pub fn shape_of(term: &Term) -> Shape<'_>
    ensures tree { (scope : reading.Scope) (bindings : Bindings) → shape_tree scope bindings result ≡ term_tree scope bindings term.now }
    ensures named { IsNamed result }
    ensures parts { weight_of_parts result < weight term.now }
{
    match term.parts() {
        Parts::Variable(name, ty) => Shape::Variable(name, ty),
        Parts::Constant(name, ty) => Shape::Constant(name, ty),
        Parts::Combination(function, argument) => combination_shape(function, argument),
        Parts::Abstraction(name, ty, body) => Shape::Bind(Binder::Lambda, name, ty, body),
    }
}

/// The level of a form.
pub fn level(shape: Shape<'_>) -> u8
    ensures { result ≡ shape_level shape.entry }
{
    match shape {
        Shape::Variable(_, _) | Shape::Constant(_, _) => 20,
        Shape::Apply(_, _) => 16,
        Shape::Not(_) => 14,
        Shape::Join(operation, _, _) => operation.level(),
        Shape::Bind(_, _, _, _) => 0,
    }
}

/// The symbol of a binder.
pub fn binder_text(binder: Binder) -> &'static str
    ensures { result.now ≡ symbol_text (binder_symbol (binder_here binder)) }
{
    match binder {
        Binder::Lambda => "\\",
        Binder::ForAll => "!",
        Binder::Exists => "?",
        Binder::Choice => "@",
    }
}

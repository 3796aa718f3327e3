// Formulas of the logical constants, and their parts.
ghost use Rattle.std.specs.Prelude.{◌≡◌, ℕ, List, [], ◌∷◌, true, IfOk, IfErr, IfSome, IsTrue, Some, codes};
ghost use Rattle.std.specs.Option.{option_map};
ghost use Rattle.hol_model.specs.declared.fault.Fault.TheVariants.{Memory};
ghost use Rattle.hol_model.specs.Terms.HolType.{bool_type};
ghost use Rattle.hol_model.specs.Terms.NamedTerm.{variable, constant, equation, type_of};
ghost use Rattle.hol_model.specs.Terms.Nameless.{image};
ghost use Rattle.hol_model.specs.Terms.Name.{is_identifier, is_constant_name};
ghost use Rattle.hol_model.specs.Logic.Logic.{not_name, unary, binary};
ghost use Rattle.hol_model.specs.Logic.NamedLogic.{true_term, false_term, connected, negation, dest_connected, dest_negation, is_constant_named};
ghost use Rattle.hol_equal.specs.Room.{Room, FitsIf, MakesIf};
ghost use Rattle.hol_bool.specs.PreludeInstances.{at_p, at_p_q, at_p_q_r};

use hol_model::Fault;
use hol_terms::{Parts, Term, mk_eq};
use hol_types::{Ty, TypeParts};
use std::alloc::Global;

/// The sides of a formula.
#[derive(Clone, Copy)]
pub struct Sides<'a> {
    pub left: &'a Term,
    pub right: &'a Term,
}

/// The sides of a formula of the binary connective of this name.
pub fn connected_sides<'a>(term: &'a Term, name: &str) -> Option<Sides<'a>>
    ensures { option_map (λ sides. (sides.left.now, sides.right.now)) result ≡ dest_connected name.now term.now }
{
    match term.parts() {
        Parts::Combination(applied, right) => match applied.parts() {
            Parts::Combination(connective, left) => match connective.parts() {
                Parts::Constant(found, _) => {
                    if found == name {
                        Some(Sides { left, right })
                    } else {
                        None
                    }
                }
                _ => None,
            },
            _ => None,
        },
        _ => None,
    }
}

/// The formula under a negation.
pub fn negated_part(term: &Term) -> Option<&Term>
    ensures { option_map (λ part. part.now) result ≡ dest_negation term.now }
{
    match term.parts() {
        Parts::Combination(connective, part) => match connective.parts() {
            Parts::Constant(found, _) => { if found == "~" { Some(part) } else { None } }
            _ => None,
        },
        _ => None,
    }
}

/// Whether the term is a constant of this name.
pub(crate) fn is_named(term: &Term, name: &str) -> bool
    ensures { result ≡ is_constant_named name.now term.now }
{
    match term.parts() {
        Parts::Constant(found, _) => found == name,
        _ => false,
    }
}

/// `T`.
pub(crate) fn truth(alloc: Global) -> Result<Term, Fault>
    ensures ok { IfOk result (λ term. term ≡ true_term) }
    ensures err { IfErr result (λ fault. fault ≡ Memory) }
{
    let boolean = Ty::boolean(alloc)?;
    Term::mk_const(alloc, "T", &boolean)
}

/// `F`.
pub fn falsity(alloc: Global) -> Result<Term, Fault>
    ensures ok { IfOk result (λ term. term ≡ false_term) }
    ensures err { IfErr result (λ fault. fault ≡ Memory) }
{
    let boolean = Ty::boolean(alloc)?;
    Term::mk_const(alloc, "F", &boolean)
}

/// The equation of two formulas.
pub fn equivalence(alloc: Global, left: &Term, right: &Term) -> Result<Term, Fault>
    ensures { (room : Room) → type_of left.now ≡ Some bool_type → type_of right.now ≡ Some bool_type
        → FitsIf room (image (equation left.now right.now)) → MakesIf room result (equation left.now right.now) }
{
    mk_eq(alloc, left, right)
}

/// The formula of two formulas and the binary connective of this name.
pub(crate) fn connect(alloc: Global, name: &str, left: &Term, right: &Term) -> Result<Term, Fault>
    requires { is_constant_name name.now ≡ true }
    ensures { (room : Room) → type_of left.now ≡ Some bool_type → type_of right.now ≡ Some bool_type
        → FitsIf room (image (connected name.now left.now right.now)) → MakesIf room result (connected name.now left.now right.now) }
{
    let connective = connective_of(alloc, name, left, right)?;
    let applied = Term::mk_comb(alloc, &connective, left)?;
    Term::mk_comb(alloc, &applied, right)
}

// The constant of this name and of the type of the binary connectives: a copy of one that joins the parts of a side, so
// that a formula of many parts has it once in memory.
fn connective_of(alloc: Global, name: &str, left: &Term, right: &Term) -> Result<Term, Fault>
    requires { is_constant_name name.now ≡ true }
    ensures ok { IfOk result (λ term. term ≡ constant name.now binary) }
    ensures err { IfErr result (λ fault. fault ≡ Memory) }
{
    if let Some(connective) = connective_in(name, left) {
        return connective.copy(alloc);
    }
    if let Some(connective) = connective_in(name, right) {
        return connective.copy(alloc);
    }
    binary_constant(alloc, name)
}

// The connective that joins the parts of a formula, where it has this name.
fn connective_in<'a>(name: &str, term: &'a Term) -> Option<&'a Term>
    ensures { IfSome result (λ connective. connective.now ≡ constant name.now binary) }
{
    match term.parts() {
        Parts::Combination(applied, _) => match applied.parts() {
            Parts::Combination(connective, _) => {
                if is_connective(name, connective) {
                    Some(connective)
                } else {
                    None
                }
            }
            _ => None,
        },
        _ => None,
    }
}

// Whether a term is the constant of this name and of the type of the binary connectives.
fn is_connective(name: &str, term: &Term) -> bool
    ensures { IsTrue result → term.now ≡ constant name.now binary }
{
    match term.parts() {
        Parts::Constant(found, ty) => found == name && is_binary(ty),
        _ => false,
    }
}

fn is_binary(ty: &Ty) -> bool
    ensures { IsTrue result → ty.now ≡ binary }
{
    match ty.parts() {
        TypeParts::Function(domain, codomain) => is_boolean(domain) && is_unary(codomain),
        _ => false,
    }
}

fn is_unary(ty: &Ty) -> bool
    ensures { IsTrue result → ty.now ≡ unary }
{
    match ty.parts() {
        TypeParts::Function(domain, codomain) => is_boolean(domain) && is_boolean(codomain),
        _ => false,
    }
}

fn is_boolean(ty: &Ty) -> bool
    ensures { IsTrue result → ty.now ≡ bool_type }
{
    matches!(ty.parts(), TypeParts::Bool)
}

// The constant of this name and of the type of the binary connectives.
fn binary_constant(alloc: Global, name: &str) -> Result<Term, Fault>
    requires { is_constant_name name.now ≡ true }
    ensures ok { IfOk result (λ term. term ≡ constant name.now binary) }
    ensures err { IfErr result (λ fault. fault ≡ Memory) }
{
    let boolean = Ty::boolean(alloc)?;
    let unary = Ty::fun(alloc, &boolean, &boolean)?;
    let binary = Ty::fun(alloc, &boolean, &unary)?;
    Term::mk_const(alloc, name, &binary)
}

/// The negation of a formula.
pub(crate) fn negate(alloc: Global, part: &Term) -> Result<Term, Fault>
    ensures { (room : Room) → type_of part.now ≡ Some bool_type → FitsIf room (image (negation part.now)) → MakesIf room result (negation part.now) }
{
    let connective = negation_constant(alloc)?;
    Term::mk_comb(alloc, &connective, part)
}

// `~`.
fn negation_constant(alloc: Global) -> Result<Term, Fault>
    ensures ok { IfOk result (λ term. term ≡ constant not_name unary) }
    ensures err { IfErr result (λ fault. fault ≡ Memory) }
{
    let boolean = Ty::boolean(alloc)?;
    let unary = Ty::fun(alloc, &boolean, &boolean)?;
    Term::mk_const(alloc, "~", &unary)
}

/// The formula, for the variable of this name and of type `bool`.
pub fn formula_pair(alloc: Global, formula: &Term, name: &str) -> Result<(Term, Term), Fault>
    requires { is_identifier name.now ≡ true }
    ensures ok { IfOk result (λ pair. pair ≡ (formula.now, variable name.now bool_type)) }
    ensures err { IfErr result (λ fault. fault ≡ Memory) }
{
    let new = formula.copy(alloc)?;
    let boolean = Ty::boolean(alloc)?;
    let old = Term::mk_var(alloc, name, &boolean)?;
    Ok((new, old))
}

/// The formula for the variable `p`.
pub(crate) fn for_p(alloc: Global, p: &Term) -> Result<Vec<(Term, Term)>, Fault>
    ensures ok { IfOk result (λ terms. terms.items ≡ at_p p.now) }
    ensures err { IfErr result (λ fault. fault ≡ Memory) }
{
    let mut terms = Vec::new(alloc);
    terms.push(formula_pair(alloc, p, "p")?)?;
    Ok(terms)
}

/// The formulas for the variables `p` and `q`.
pub fn for_p_q(alloc: Global, p: &Term, q: &Term) -> Result<Vec<(Term, Term)>, Fault>
    ensures ok { IfOk result (λ terms. terms.items ≡ at_p_q p.now q.now) }
    ensures err { IfErr result (λ fault. fault ≡ Memory) }
{
    let mut terms = for_p(alloc, p)?;
    terms.push(formula_pair(alloc, q, "q")?)?;
    Ok(terms)
}

/// The formulas for the variables `p`, `q` and `r`.
pub(crate) fn for_p_q_r(
    alloc: Global,
    p: &Term,
    q: &Term,
    r: &Term,
) -> Result<Vec<(Term, Term)>, Fault>
    ensures ok { IfOk result (λ terms. terms.items ≡ at_p_q_r p.now q.now r.now) }
    ensures err { IfErr result (λ fault. fault ≡ Memory) }
{
    let mut terms = for_p_q(alloc, p, q)?;
    terms.push(formula_pair(alloc, r, "r")?)?;
    Ok(terms)
}

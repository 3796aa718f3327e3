// The axioms of equality, as formulas with proofs.

use crate::first_order::{Symbol, Terms};
use crate::problem::{Given, Problem};
use hol_host::HostFail;
use hol_just::Just;
use hol_model::Fault;
use hol_tactics_forms::{
    Derivation, assume, disch, eq_mp, fresh, generalize, mk_comb, mk_forall, mk_imp, refl, sym,
    trans,
};
use hol_terms::{Term, frees, mk_eq};
use hol_types::Ty;
use std::alloc::Global;

// A function or a predicate, with the types of the arguments that it has and of the result.
#[derive(Drop)]
struct Applied<'a> {
    head: &'a Term,
    arguments: Vec<&'a Ty>,
    result: &'a Ty,
}

// A formula with its proof.
#[derive(Drop)]
struct Fact {
    formula: Term,
    proof: Just,
}

/// Adds reflexivity and transitivity at each type at which there may be equations, and that each function and each predicate respects
/// these. Where the clauses have no equation nothing is added.
pub fn add_equality(alloc: Global, problem: &mut Problem) -> Result<(), HostFail> {
    for axiom in axioms(alloc, &problem.terms)? {
        let given = Given {
            formula: axiom.formula,
            proof: Some(axiom.proof),
        };
        problem.give(alloc, Ok(given))?;
    }
    Ok(())
}

fn axioms(alloc: Global, terms: &Terms) -> Result<Vec<Fact>, HostFail> {
    let heads = applied_heads(alloc, terms)?;
    let types = equated_types(alloc, terms, &heads)?;
    axioms_at(alloc, &types, &heads)
}

// The axioms at types, and those of the functions and predicates that have arguments of these.
fn axioms_at(alloc: Global, types: &[&Ty], heads: &[Applied<'_>]) -> Result<Vec<Fact>, HostFail> {
    let mut axioms = Vec::new(alloc);
    for ty in types {
        axioms.push(reflexive(alloc, ty)?)?;
        axioms.push(transitive(alloc, ty)?)?;
    }
    for head in heads {
        if contains_any(types, &head.arguments) {
            axioms.push(respected(alloc, head, types)?)?;
        }
    }
    Ok(axioms)
}

// The types of the sides of equations, also of those that follow from others.
fn equated_types<'a>(
    alloc: Global,
    terms: &'a Terms,
    heads: &[Applied<'a>],
) -> Result<Vec<&'a Ty>, HostFail> {
    let mut types = Vec::new(alloc);
    for symbol in terms.symbols() {
        if let Symbol::Known { term, .. } = symbol {
            if let Some(side) = equated_type(term) {
                types.push(side)?;
            }
        }
    }
    for _ in heads {
        add_results(heads, &mut types)?;
    }
    Ok(types)
}

// The type of the sides, where the term is equality.
fn equated_type(term: &Term) -> Option<&Ty> {
    match term.dest_const() {
        Some(("=", ty)) => match ty.dest_fun() {
            Some((domain, _)) => Some(domain),
            None => None,
        },
        _ => None,
    }
}

// Each symbol but equality that is applied, with the most arguments that it has.
fn applied_heads(alloc: Global, terms: &Terms) -> Result<Vec<Applied<'_>>, HostFail> {
    let most = terms.most_arguments(alloc)?;
    let mut heads = Vec::new(alloc);
    for (symbol, arguments) in terms.symbols().iter().zip(&most) {
        if let Symbol::Known {
            term,
            parameters: 0,
        } = symbol
        {
            if *arguments > 0 && equated_type(term).is_none() {
                heads.push(Applied::new(alloc, term, *arguments)?)?;
            }
        }
    }
    Ok(heads)
}

impl<'a> Applied<'a> {
    // A term with so many arguments.
    fn new(alloc: Global, head: &'a Term, count: u32) -> Result<Applied<'a>, HostFail> {
        let mut arguments = Vec::new(alloc);
        let mut result = head.ty();
        for _ in 0..count {
            let Some((domain, codomain)) = result.dest_fun() else {
                return Err(HostFail::Failed);
            };
            arguments.push(domain)?;
            result = codomain;
        }
        Ok(Applied {
            head,
            arguments,
            result,
        })
    }
}

fn contains(types: &[&Ty], ty: &Ty) -> bool {
    types.iter().any(|known| known.eq(ty))
}

fn contains_any(types: &[&Ty], wanted: &[&Ty]) -> bool {
    wanted.iter().any(|ty| contains(types, ty))
}

// Adds the types of results of functions of which an argument may be equated.
fn add_results<'a>(heads: &[Applied<'a>], types: &mut Vec<&'a Ty>) -> Result<(), HostFail> {
    for head in heads {
        if !head.result.is_bool()
            && contains_any(types, &head.arguments)
            && !contains(types, head.result)
        {
            types.push(head.result)?;
        }
    }
    Ok(())
}

// A formula with its proof, where there are both.
fn fact_of(formula: Result<Term, Fault>, proof: Derivation) -> Result<Fact, HostFail> {
    let formula = formula?;
    let proof = proof?;
    Ok(Fact { formula, proof })
}

// Of `q`, `p ==> q`.
fn discharged(alloc: Global, p: &Term, of: Result<Fact, HostFail>) -> Result<Fact, HostFail> {
    let of = of?;
    fact_of(mk_imp(alloc, p, &of.formula), disch(alloc, p, Ok(of.proof)))
}

// Of `p`, `!x. p`.
fn generalized(alloc: Global, x: &Term, of: Result<Fact, HostFail>) -> Result<Fact, HostFail> {
    let of = of?;
    fact_of(
        mk_forall(alloc, x, &of.formula),
        generalize(alloc, x, Ok(of.proof)),
    )
}

// `!x. x = x`.
fn reflexive(alloc: Global, ty: &Ty) -> Result<Fact, HostFail> {
    let x = Term::mk_var(alloc, "x", ty)?;
    generalized(alloc, &x, fact_of(mk_eq(alloc, &x, &x), refl(alloc, &x)))
}

// `!x. !y. !z. x = y ==> x = z ==> y = z`.
fn transitive(alloc: Global, ty: &Ty) -> Result<Fact, HostFail> {
    let x = Term::mk_var(alloc, "x", ty)?;
    let y = Term::mk_var(alloc, "y", ty)?;
    let z = Term::mk_var(alloc, "z", ty)?;
    let of_z = generalized(alloc, &z, transitive_at(alloc, &x, &y, &z));
    generalized(alloc, &x, generalized(alloc, &y, of_z))
}

// `x = y ==> x = z ==> y = z`.
fn transitive_at(alloc: Global, x: &Term, y: &Term, z: &Term) -> Result<Fact, HostFail> {
    let first = mk_eq(alloc, x, y)?;
    let second = mk_eq(alloc, x, z)?;
    let proof = trans(
        alloc,
        sym(alloc, assume(alloc, &first)),
        assume(alloc, &second),
    );
    let joined = fact_of(mk_eq(alloc, y, z), proof);
    discharged(alloc, &first, discharged(alloc, &second, joined))
}

// An argument on the two sides of an equation: the same variable on both, or two with the premise that they are equal.
#[derive(Drop)]
struct Argument {
    left: Term,
    right: Term,
    premise: Option<Term>,
}

// A new variable.
fn variable(alloc: Global, name: &str, ty: &Ty, avoid: &mut Vec<Term>) -> Result<Term, HostFail> {
    let named = Term::mk_var(alloc, name, ty)?;
    Ok(fresh(alloc, avoid, &named)?)
}

impl Argument {
    // Of new variables of a type.
    fn new(
        alloc: Global,
        ty: &Ty,
        is_equated: bool,
        avoid: &mut Vec<Term>,
    ) -> Result<Argument, HostFail> {
        let left = variable(alloc, "x", ty, avoid)?;
        if !is_equated {
            let right = left.copy(alloc)?;
            return Ok(Argument {
                left,
                right,
                premise: None,
            });
        }
        let right = variable(alloc, "y", ty, avoid)?;
        let premise = mk_eq(alloc, &left, &right)?;
        Ok(Argument {
            left,
            right,
            premise: Some(premise),
        })
    }

    // That the two are equal.
    fn equal(&self, alloc: Global) -> Derivation {
        match &self.premise {
            Some(premise) => assume(alloc, premise),
            None => refl(alloc, &self.left),
        }
    }
}

// Arguments of these types: where there are no equations, the same on both sides.
fn arguments(
    alloc: Global,
    head: &Applied<'_>,
    equated: &[&Ty],
) -> Result<Vec<Argument>, HostFail> {
    let mut avoid = frees(alloc, head.head)?;
    let mut arguments = Vec::new(alloc);
    for ty in &head.arguments {
        let is_equated = contains(equated, ty);
        arguments.push(Argument::new(alloc, ty, is_equated, &mut avoid)?)?;
    }
    Ok(arguments)
}

// The function applied to its arguments on one side.
fn side(
    alloc: Global,
    function: &Term,
    arguments: &[Argument],
    is_left: bool,
) -> Result<Term, HostFail> {
    let mut side = function.copy(alloc)?;
    for argument in arguments {
        let term = if is_left {
            &argument.left
        } else {
            &argument.right
        };
        side = Term::mk_comb(alloc, &side, term)?;
    }
    Ok(side)
}

// MK_COMB: that the sides are equal, from the premises.
fn congruent(alloc: Global, function: &Term, arguments: &[Argument]) -> Derivation {
    let mut equal = refl(alloc, function);
    for argument in arguments {
        equal = mk_comb(alloc, equal, argument.equal(alloc));
    }
    equal
}

// The equation of the sides; where they are formulas, that the left one implies the right one.
fn concluded(alloc: Global, head: &Applied<'_>, arguments: &[Argument]) -> Result<Fact, HostFail> {
    let left = side(alloc, head.head, arguments, true)?;
    let right = side(alloc, head.head, arguments, false)?;
    let equal = congruent(alloc, head.head, arguments);
    if head.result.is_bool() {
        let follows = eq_mp(alloc, equal, assume(alloc, &left));
        return discharged(alloc, &left, fact_of(Ok(right), follows));
    }
    fact_of(mk_eq(alloc, &left, &right), equal)
}

// A fact with the premises as antecedents and the variables bound.
fn closed(
    alloc: Global,
    arguments: &[Argument],
    of: Result<Fact, HostFail>,
) -> Result<Fact, HostFail> {
    let mut fact = of;
    for argument in arguments.iter().rev() {
        if let Some(premise) = &argument.premise {
            fact = discharged(alloc, premise, fact);
        }
    }
    for argument in arguments {
        if argument.premise.is_some() {
            fact = generalized(alloc, &argument.right, fact);
        }
        fact = generalized(alloc, &argument.left, fact);
    }
    fact
}

// `!x. !y. x = y ==> .. ==> f x .. = f y ..`, of a predicate `.. ==> P x .. ==> P y ..`. An argument of a type without equations is
// the same on both sides.
fn respected(alloc: Global, head: &Applied<'_>, types: &[&Ty]) -> Result<Fact, HostFail> {
    let arguments = arguments(alloc, head, types)?;
    let fact = concluded(alloc, head, &arguments);
    closed(alloc, &arguments, fact)
}

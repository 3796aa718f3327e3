// What is given, as clauses.

use crate::first_order::Terms;
use hol_host::HostFail;
use hol_just::Just;
use hol_model::Fault;
use hol_tactics_forms::Derivation;
use hol_terms::Term;
use std::alloc::Global;

/// An atom, affirmed or denied.
#[derive(Clone, Copy)]
pub struct Literal {
    pub positive: bool,
    pub atom: usize,
}

/// How it goes on from a formula on the way to the literals of a clause.
#[derive(Clone, Copy)]
pub enum Part {
    /// Of what holds for all, the instance at the quantified variable of this number.
    Instance(usize),
    /// Of what holds for some, the witness of this symbol.
    Witness(usize),
    /// The first of two facts, or else the second. Those of an equivalence are that one side, denied, or the other holds: for `p <=> q`
    /// first `~p` or `q`, for `~(p <=> q)` first `p` or `q`.
    Side(bool),
}

/// The way from a formula to the literals of a clause. Negations are passed without a word.
#[derive(Clone, Copy)]
pub enum Route {
    Leaf(Literal),
    /// A part, and the route behind it.
    Through(Part, usize),
    /// Either of two.
    Both(usize, usize),
}

/// A formula that is given: an assumption, or what is proved.
#[derive(Drop)]
pub struct Given {
    pub formula: Term,
    pub proof: Option<Just>,
}

impl Given {
    /// A formula that is assumed.
    pub fn assumed(formula: Result<Term, Fault>) -> Result<Given, HostFail> {
        Ok(Given {
            formula: formula?,
            proof: None,
        })
    }

    /// A formula that is proved.
    pub fn proved(formula: Result<Term, Fault>, proof: Derivation) -> Result<Given, HostFail> {
        let formula = formula?;
        let proof = Some(proof?);
        Ok(Given { formula, proof })
    }
}

/// Literals of which one holds, for all values of the variables.
#[derive(Drop)]
pub struct Clause {
    /// The formula that it is of, and the route to its literals.
    pub given: usize,
    pub route: usize,
    /// Their variables are numbered from 0.
    pub literals: Vec<Literal>,
    /// The numbers that its variables have in routes.
    pub variables: Vec<usize>,
}

/// Formulas, and the clauses that follow from them.
#[derive(Drop)]
pub struct Problem {
    pub terms: Terms,
    pub givens: Vec<Given>,
    pub routes: Vec<Route>,
    pub clauses: Vec<Clause>,
    /// The quantified variables of the formulas.
    pub quantified: Vec<Term>,
}

impl Problem {
    /// Nothing given.
    pub fn new(alloc: Global) -> Problem {
        Problem {
            terms: Terms::new(alloc),
            givens: Vec::new(alloc),
            routes: Vec::new(alloc),
            clauses: Vec::new(alloc),
            quantified: Vec::new(alloc),
        }
    }

    /// The route of this number.
    pub fn route(&self, number: usize) -> Option<Route> {
        self.routes.get(number).copied()
    }

    /// The clause of this number.
    pub fn clause(&self, number: usize) -> Option<&Clause> {
        self.clauses.get(number)
    }
}

// Nodes of a refutation as terms of the logic.

use crate::witnesses::Witnesses;
use hol_host::HostFail;
use hol_tactics_forms::{copy_terms, with_value};
use hol_tactics_search::{Bindings, DEPTH, Instance, Node, Problem, Symbol, place_of};
use hol_terms::Term;
use hol_types::Ty;
use std::alloc::Global;

/// An instance of a clause: the values of its variables begin at the base.
#[derive(Clone, Copy)]
pub(crate) struct ClauseInstance {
    pub(crate) clause: usize,
    pub(crate) base: usize,
}

/// The values that a refutation gives to variables, and the witnesses in them.
#[derive(Drop)]
pub(crate) struct Values<'a> {
    problem: &'a Problem,
    bindings: &'a Bindings,
    pub(crate) witnesses: Witnesses,
}

impl<'a> Values<'a> {
    pub(crate) fn new(
        problem: &'a Problem,
        bindings: &'a Bindings,
        witnesses: Witnesses,
    ) -> Values<'a> {
        Values {
            problem,
            bindings,
            witnesses,
        }
    }

    /// What stands for the quantified variable of this number in an instance of a clause.
    pub(crate) fn value(
        &mut self,
        alloc: Global,
        of: ClauseInstance,
        number: usize,
    ) -> Result<Term, HostFail> {
        let problem = self.problem;
        let Some(variable) = problem.quantified.get(number) else {
            return Err(HostFail::Failed);
        };
        match self.node_of(of, number) {
            Some(at) => self.term_of(alloc, at, DEPTH),
            None => self.witnesses.any(alloc, variable.ty()),
        }
    }

    // The node that was set for the quantified variable of this number.
    fn node_of(&self, of: ClauseInstance, number: usize) -> Option<Instance> {
        let clause = self.problem.clause(of.clause)?;
        let place = place_of(&clause.variables, number)?;
        self.bindings.value(of.base, place)
    }

    /// The number of the witness that a symbol stands for in an instance of a clause.
    pub(crate) fn witness(
        &mut self,
        alloc: Global,
        of: ClauseInstance,
        symbol: usize,
    ) -> Result<usize, HostFail> {
        let problem = self.problem;
        let Some(
            Symbol::Witness {
                variable,
                parameters,
            },
        ) = problem.terms.symbol(symbol)
        else {
            return Err(HostFail::Failed);
        };
        let mut values = Vec::new(alloc);
        for parameter in parameters {
            values.push(self.value(alloc, of, *parameter)?)?;
        }
        self.witnesses.number(alloc, symbol, values, variable)
    }

    // The term that a node stands for. Where no value was set any serves.
    fn term_of(&mut self, alloc: Global, at: Instance, depth: u32) -> Result<Term, HostFail> {
        if depth == 0 {
            return Err(HostFail::Failed);
        }
        let mut reversed = Vec::new(alloc);
        let head = self.spine(at, &mut reversed)?;
        let mut arguments = Vec::new(alloc);
        for argument in reversed.iter().rev() {
            arguments.push(self.term_of(alloc, *argument, depth - 1)?)?;
        }
        self.head_applied(alloc, head, &arguments)
    }

    // The head of an application; its arguments are added to the list, the last one first.
    fn spine(&self, at: Instance, arguments: &mut Vec<Instance>) -> Result<Instance, HostFail> {
        let terms = &self.problem.terms;
        let mut head = self.bindings.resolved(terms, at);
        for _ in 0..DEPTH {
            let Node::Apply(function, argument) = terms.node(head.node) else {
                return Ok(head);
            };
            arguments.push(head.part(argument))?;
            head = self.bindings.resolved(terms, head.part(function));
        }
        Err(HostFail::Failed)
    }

    fn head_applied(
        &mut self,
        alloc: Global,
        head: Instance,
        arguments: &[Term],
    ) -> Result<Term, HostFail> {
        let problem = self.problem;
        match problem.terms.node(head.node) {
            Node::Variable(_) => match problem.terms.ty(head.node) {
                Some(ty) => self.any_applied(alloc, ty, arguments),
                None => Err(HostFail::Failed),
            },
            Node::Symbol(number) => match problem.terms.symbol(number) {
                Some(Symbol::Known { term, parameters }) => {
                    known_applied(alloc, term, *parameters, arguments)
                }
                Some(
                    Symbol::Witness {
                        variable,
                        parameters,
                    },
                ) => {
                    let count = parameters.len();
                    self.witness_applied(alloc, number, variable, count, arguments)
                }
                None => Err(HostFail::Failed),
            },
            Node::Apply(_, _) => Err(HostFail::Failed),
        }
    }

    fn any_applied(
        &mut self,
        alloc: Global,
        ty: &Ty,
        arguments: &[Term],
    ) -> Result<Term, HostFail> {
        let any = self.witnesses.any(alloc, ty)?;
        applied(alloc, any, arguments)
    }

    // The variable of a witness for the first arguments, so many, applied to the others.
    fn witness_applied(
        &mut self,
        alloc: Global,
        symbol: usize,
        named: &Term,
        parameters: usize,
        arguments: &[Term],
    ) -> Result<Term, HostFail> {
        let values = copy_terms(alloc, first(arguments, parameters))?;
        let number = self.witnesses.number(alloc, symbol, values, named)?;
        let variable = self.witnesses.variable(alloc, number)?;
        applied(alloc, variable, others(arguments, parameters))
    }
}

// The first ones, so many.
fn first(terms: &[Term], count: usize) -> &[Term] {
    if count < terms.len() {
        &terms[..count]
    } else {
        terms
    }
}

// The ones behind the first, so many.
fn others(terms: &[Term], count: usize) -> &[Term] {
    if count < terms.len() {
        &terms[count..]
    } else {
        &[]
    }
}

// An abstraction over so many parameters with the first arguments in their place, applied to the others.
fn known_applied(
    alloc: Global,
    term: &Term,
    parameters: usize,
    arguments: &[Term],
) -> Result<Term, HostFail> {
    let mut made = term.copy(alloc)?;
    for value in first(arguments, parameters) {
        made = body_at(alloc, &made, value)?;
    }
    applied(alloc, made, others(arguments, parameters))
}

// The body of an abstraction at a value.
fn body_at(alloc: Global, abstraction: &Term, value: &Term) -> Result<Term, HostFail> {
    match abstraction.dest_abs() {
        Some((variable, body)) => Ok(with_value(alloc, value, variable, body)?),
        None => Err(HostFail::Failed),
    }
}

fn applied(alloc: Global, function: Term, arguments: &[Term]) -> Result<Term, HostFail> {
    let mut made = function;
    for argument in arguments {
        made = Term::mk_comb(alloc, &made, argument)?;
    }
    Ok(made)
}

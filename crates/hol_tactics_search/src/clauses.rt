// Clauses of formulas, each with its route: which parts of the formula it goes through.

use crate::first_order::{DEPTH, Scoped, add, is_free};
use crate::problem::{Clause, Given, Literal, Part, Problem, Route};
use hol_host::HostFail;
use hol_tactics_forms::{Formula, dest_formula};
use hol_terms::Term;
use std::alloc::Global;

// How many clauses there may be.
const CLAUSES: usize = 2000;

// The numbers of the routes of clauses.
type Routes = Result<Vec<usize>, HostFail>;

// A formula that is affirmed or denied.
#[derive(Clone, Copy)]
struct Signed<'a> {
    formula: &'a Term,
    positive: bool,
}

// Two formulas with signs, which are two facts, or of which one holds.
#[derive(Clone, Copy)]
struct Two<'a> {
    left: Signed<'a>,
    right: Signed<'a>,
    are_facts: bool,
}

// A body that holds for all values of its variable, or for some.
#[derive(Clone, Copy)]
struct Bound<'a> {
    variable: &'a Term,
    body: Signed<'a>,
    for_all: bool,
}

// What a formula with a sign says.
#[derive(Clone, Copy)]
enum Meaning<'a> {
    Literal,
    Same(Signed<'a>),
    Joined(Two<'a>),
    Equivalence(&'a Term, &'a Term),
    Quantified(Bound<'a>),
}

fn with_sign(formula: &Term, positive: bool) -> Signed<'_> {
    Signed { formula, positive }
}

fn joined<'a>(left: Signed<'a>, right: Signed<'a>, are_facts: bool) -> Meaning<'a> {
    Meaning::Joined(Two {
        left,
        right,
        are_facts,
    })
}

impl<'a> Signed<'a> {
    fn meaning(self) -> Meaning<'a> {
        let positive = self.positive;
        match dest_formula(self.formula) {
            Formula::Not(p) => Meaning::Same(with_sign(p, !positive)),
            Formula::And(p, q) => joined(with_sign(p, positive), with_sign(q, positive), positive),
            Formula::Or(p, q) => joined(with_sign(p, positive), with_sign(q, positive), !positive),
            Formula::Implies(p, q) => {
                joined(with_sign(p, !positive), with_sign(q, positive), !positive)
            }
            Formula::Iff(p, q) => Meaning::Equivalence(p, q),
            Formula::ForAll(variable, body) => self.quantified(variable, body, positive),
            Formula::Exists(variable, body) => self.quantified(variable, body, !positive),
            Formula::Atom => Meaning::Literal,
        }
    }

    fn quantified(self, variable: &'a Term, body: &'a Term, for_all: bool) -> Meaning<'a> {
        Meaning::Quantified(Bound {
            variable,
            body: with_sign(body, self.positive),
            for_all,
        })
    }
}

impl Problem {
    /// Adds what is given, and its clauses.
    pub fn give(&mut self, alloc: Global, given: Result<Given, HostFail>) -> Result<(), HostFail> {
        let given = given?;
        self.add_clauses(alloc, &given.formula)?;
        self.givens.push(given)?;
        Ok(())
    }

    // Adds the clauses of what is given next.
    fn add_clauses(&mut self, alloc: Global, formula: &Term) -> Result<(), HostFail> {
        let mut scope = Vec::new(alloc);
        let routes = self.routes_of(alloc, with_sign(formula, true), &mut scope, DEPTH)?;
        for route in &routes {
            self.add_clause(alloc, *route)?;
        }
        Ok(())
    }

    // Adds the clause of a route, unless an atom is both affirmed and denied in it.
    fn add_clause(&mut self, alloc: Global, route: usize) -> Result<(), HostFail> {
        if self.clauses.len() >= CLAUSES {
            return Err(HostFail::Failed);
        }
        let mut leaves = Vec::new(alloc);
        self.add_leaves(route, &mut leaves, DEPTH)?;
        if self.is_trivial(&leaves) {
            return Ok(());
        }
        let variables = self.variables_of(alloc, &leaves)?;
        let literals = self.renumbered(alloc, &leaves, &variables)?;
        self.clauses.push(Clause {
            given: self.givens.len(),
            route,
            literals,
            variables,
        })?;
        Ok(())
    }

    fn is_trivial(&self, literals: &[Literal]) -> bool {
        for first in literals {
            for second in literals {
                if first.positive
                    && !second.positive
                    && self.terms.is_same(first.atom, second.atom, DEPTH)
                {
                    return true;
                }
            }
        }
        false
    }

    fn variables_of(&self, alloc: Global, literals: &[Literal]) -> Result<Vec<usize>, HostFail> {
        let mut variables = Vec::new(alloc);
        for literal in literals {
            self.terms
                .add_variables(literal.atom, &mut variables, DEPTH)?;
        }
        Ok(variables)
    }

    // The literals with each variable numbered by its place in a list.
    fn renumbered(
        &mut self,
        alloc: Global,
        literals: &[Literal],
        order: &[usize],
    ) -> Result<Vec<Literal>, HostFail> {
        let mut renumbered = Vec::new(alloc);
        for literal in literals {
            renumbered.push(Literal {
                positive: literal.positive,
                atom: self.terms.renumbered(literal.atom, order, DEPTH)?,
            })?;
        }
        Ok(renumbered)
    }

    // Adds the literals of a route, from left to right.
    fn add_leaves(
        &self,
        route: usize,
        leaves: &mut Vec<Literal>,
        depth: u32,
    ) -> Result<(), HostFail> {
        if depth == 0 {
            return Err(HostFail::Failed);
        }
        match self.route(route) {
            Some(Route::Leaf(literal)) => Ok(leaves.push(literal)?),
            Some(Route::Through(_, inner)) => self.add_leaves(inner, leaves, depth - 1),
            Some(Route::Both(left, right)) => {
                self.add_leaves(left, leaves, depth - 1)?;
                self.add_leaves(right, leaves, depth - 1)
            }
            None => Err(HostFail::Failed),
        }
    }

    // The routes of the clauses of a formula in which these variables are bound.
    #[cycle(routing)]
    fn routes_of(
        &mut self,
        alloc: Global,
        of: Signed<'_>,
        scope: &mut Vec<Scoped>,
        depth: u32,
    ) -> Routes {
        if depth == 0 {
            return Err(HostFail::Failed);
        }
        let below = depth - 1;
        match of.meaning() {
            Meaning::Literal => self.routes_of_atom(alloc, of, scope),
            Meaning::Same(denied) => self.routes_of(alloc, denied, scope, below),
            Meaning::Joined(two) => self.routes_of_two(alloc, two, scope, below),
            Meaning::Equivalence(p, q) => {
                self.routes_of_iff(alloc, p, q, of.positive, scope, below)
            }
            Meaning::Quantified(bound) => {
                self.routes_of_quantified(alloc, of.formula, bound, scope, below)
            }
        }
    }

    fn routes_of_atom(&mut self, alloc: Global, of: Signed<'_>, scope: &[Scoped]) -> Routes {
        let leaf = Route::Leaf(Literal {
            positive: of.positive,
            atom: self.terms.of_term(alloc, of.formula, scope)?,
        });
        let mut routes = Vec::new(alloc);
        routes.push(add(&mut self.routes, leaf)?)?;
        Ok(routes)
    }

    #[cycle(routing)]
    fn routes_of_two(
        &mut self,
        alloc: Global,
        of: Two<'_>,
        scope: &mut Vec<Scoped>,
        depth: u32,
    ) -> Routes {
        let left = self.routes_of(alloc, of.left, scope, depth)?;
        let right = self.routes_of(alloc, of.right, scope, depth)?;
        if of.are_facts {
            self.facts(left, right)
        } else {
            self.both(alloc, &left, &right)
        }
    }

    // Of `p <=> q` first `~p \/ q` and then `p \/ ~q`, of its negation `p \/ q` and `~p \/ ~q`.
    #[cycle(routing)]
    fn routes_of_iff(
        &mut self,
        alloc: Global,
        p: &Term,
        q: &Term,
        positive: bool,
        scope: &mut Vec<Scoped>,
        depth: u32,
    ) -> Routes {
        let first = Two {
            left: with_sign(p, !positive),
            right: with_sign(q, true),
            are_facts: false,
        };
        let second = Two {
            left: with_sign(p, positive),
            right: with_sign(q, false),
            are_facts: false,
        };
        let first = self.routes_of_two(alloc, first, scope, depth)?;
        let second = self.routes_of_two(alloc, second, scope, depth)?;
        self.facts(first, second)
    }

    #[cycle(routing)]
    fn routes_of_quantified(
        &mut self,
        alloc: Global,
        formula: &Term,
        of: Bound<'_>,
        scope: &mut Vec<Scoped>,
        depth: u32,
    ) -> Routes {
        let (part, node) = if of.for_all {
            self.instance(alloc, of.variable)?
        } else {
            self.witness(alloc, formula, of.variable, scope)?
        };
        let variable = of.variable.copy(alloc)?;
        scope.push(Scoped { variable, node })?;
        let inner = self.routes_of(alloc, of.body, scope, depth);
        scope.pop();
        self.through(part, inner?)
    }

    // The part and the node of a new quantified variable.
    fn instance(&mut self, alloc: Global, variable: &Term) -> Result<(Part, usize), HostFail> {
        let number = add(&mut self.quantified, variable.copy(alloc)?)?;
        let node = self.terms.variable(alloc, number, variable.ty())?;
        Ok((Part::Instance(number), node))
    }

    // The part and the node of a witness for the variable of a formula, as a function of the quantified variables that stand in it.
    fn witness(
        &mut self,
        alloc: Global,
        formula: &Term,
        variable: &Term,
        scope: &[Scoped],
    ) -> Result<(Part, usize), HostFail> {
        let parameters = self.quantified_in(alloc, formula, scope)?;
        let nodes = self.nodes_of(alloc, &parameters)?;
        let (symbol, node) = self.terms.witness(alloc, variable, parameters, &nodes)?;
        Ok((Part::Witness(symbol), node))
    }

    // The numbers of the quantified variables in what the free variables of a formula stand for.
    fn quantified_in(
        &self,
        alloc: Global,
        formula: &Term,
        scope: &[Scoped],
    ) -> Result<Vec<usize>, HostFail> {
        let mut numbers = Vec::new(alloc);
        for scoped in scope {
            if is_free(scope, scoped, formula) {
                self.terms.add_variables(scoped.node, &mut numbers, DEPTH)?;
            }
        }
        Ok(numbers)
    }

    // Nodes of quantified variables.
    fn nodes_of(&mut self, alloc: Global, numbers: &[usize]) -> Result<Vec<usize>, HostFail> {
        let mut nodes = Vec::new(alloc);
        for number in numbers {
            let Some(variable) = self.quantified.get(*number) else {
                return Err(HostFail::Failed);
            };
            nodes.push(self.terms.variable(alloc, *number, variable.ty())?)?;
        }
        Ok(nodes)
    }

    // Those of two facts.
    fn facts(&mut self, first: Vec<usize>, second: Vec<usize>) -> Routes {
        let mut routes = self.through(Part::Side(true), first)?;
        let mut others = self.through(Part::Side(false), second)?;
        routes.append(&mut others)?;
        Ok(routes)
    }

    // The routes that go through a part to these.
    fn through(&mut self, part: Part, inner: Vec<usize>) -> Routes {
        let mut routes = inner;
        for route in routes.iter_mut() {
            *route = add(&mut self.routes, Route::Through(part, *route))?;
        }
        Ok(routes)
    }

    // Each of the left beside each of the right.
    fn both(&mut self, alloc: Global, left: &[usize], right: &[usize]) -> Routes {
        if left.len().saturating_mul(right.len()) > CLAUSES {
            return Err(HostFail::Failed);
        }
        let mut routes = Vec::new(alloc);
        for first in left {
            for second in right {
                routes.push(add(&mut self.routes, Route::Both(*first, *second))?)?;
            }
        }
        Ok(routes)
    }
}

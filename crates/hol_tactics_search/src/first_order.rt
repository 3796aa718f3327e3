// First-order terms: nodes by number, curried, over symbols that stand for terms of the logic.

use hol_alpha::aconv;
use hol_host::HostFail;
use hol_model::TERM_HEIGHT_LIMIT;
use hol_terms::{Term, free_in};
use hol_types::Ty;
use std::alloc::Global;

/// How deep nodes are gone into: as deep as terms.
pub const DEPTH: u32 = TERM_HEIGHT_LIMIT;

/// A node: a variable, a symbol, or a function applied to an argument.
#[derive(Clone, Copy)]
pub enum Node {
    Variable(usize),
    Symbol(usize),
    Apply(usize, usize),
}

/// What a symbol stands for. Its first arguments are its parameters.
#[derive(Drop)]
pub enum Symbol {
    /// A term without bound variables of the problem, an abstraction over so many parameters.
    Known {
        term: Term,
        parameters: usize,
    },
    /// A witness for an existential variable; its parameters are the quantified variables of these numbers.
    Witness {
        variable: Term,
        parameters: Vec<usize>,
    },
}

/// A bound variable of the problem, and the node that stands for it.
#[derive(Drop)]
pub struct Scoped {
    pub variable: Term,
    pub node: usize,
}

// A node, and the number of its type. A symbol without all its parameters has none.
#[derive(Clone, Copy)]
struct Typed {
    node: Node,
    ty: Option<usize>,
}

/// Adds it to all, and answers its number.
pub(crate) fn add<T: Drop>(all: &mut Vec<T>, new: T) -> Result<usize, HostFail> {
    let number = all.len();
    all.push(new)?;
    Ok(number)
}

/// All nodes, the symbols and the types, each by number.
#[derive(Drop)]
pub struct Terms {
    nodes: Vec<Typed>,
    symbols: Vec<Symbol>,
    types: Vec<Ty>,
}

impl Terms {
    /// No nodes.
    pub fn new(alloc: Global) -> Terms {
        Terms {
            nodes: Vec::new(alloc),
            symbols: Vec::new(alloc),
            types: Vec::new(alloc),
        }
    }

    /// The node of this number; past the last one, a symbol that there is not.
    pub fn node(&self, number: usize) -> Node {
        match self.nodes.get(number) {
            Some(typed) => typed.node,
            None => Node::Symbol(usize::MAX),
        }
    }

    /// The number of a node's type.
    pub fn type_number(&self, node: usize) -> Option<usize> {
        match self.nodes.get(node) {
            Some(typed) => typed.ty,
            None => None,
        }
    }

    /// The type of a node.
    pub fn ty(&self, node: usize) -> Option<&Ty> {
        self.types.get(self.type_number(node)?)
    }

    /// What the symbol of this number stands for.
    pub fn symbol(&self, number: usize) -> Option<&Symbol> {
        self.symbols.get(number)
    }

    /// What the symbols stand for, in order of their numbers.
    pub fn symbols(&self) -> &[Symbol] {
        &self.symbols
    }

    fn push(&mut self, node: Node, ty: Option<usize>) -> Result<usize, HostFail> {
        add(&mut self.nodes, Typed { node, ty })
    }

    // The number of a type, which is added if it is new.
    fn number_of_type(&mut self, alloc: Global, ty: &Ty) -> Result<usize, HostFail> {
        if let Some(number) = self.types.iter().position(|known| known.eq(ty)) {
            return Ok(number);
        }
        add(&mut self.types, ty.copy(alloc)?)
    }

    // The number of the symbol of a term with so many parameters, which is added if it is new.
    fn number_of_symbol(
        &mut self,
        alloc: Global,
        term: &Term,
        parameters: usize,
    ) -> Result<usize, HostFail> {
        if let Some(number) = place_of_symbol(&self.symbols, term, parameters) {
            return Ok(number);
        }
        let term = term.copy(alloc)?;
        add(&mut self.symbols, Symbol::Known { term, parameters })
    }

    /// The variable of this number and type.
    pub fn variable(&mut self, alloc: Global, number: usize, ty: &Ty) -> Result<usize, HostFail> {
        let ty = self.number_of_type(alloc, ty)?;
        self.push(Node::Variable(number), Some(ty))
    }

    /// A new symbol, for a witness of this existential variable, and the node of it that is applied to these parameters.
    pub fn witness(
        &mut self,
        alloc: Global,
        variable: &Term,
        parameters: Vec<usize>,
        nodes: &[usize],
    ) -> Result<(usize, usize), HostFail> {
        let new = Symbol::Witness {
            variable: variable.copy(alloc)?,
            parameters,
        };
        let symbol = add(&mut self.symbols, new)?;
        let node = self.applied(alloc, symbol, nodes, variable.ty())?;
        Ok((symbol, node))
    }

    // A symbol applied to its parameters, of this type.
    fn applied(
        &mut self,
        alloc: Global,
        symbol: usize,
        parameters: &[usize],
        ty: &Ty,
    ) -> Result<usize, HostFail> {
        let ty = self.number_of_type(alloc, ty)?;
        let mut node = self.push(Node::Symbol(symbol), None)?;
        for parameter in parameters {
            node = self.push(Node::Apply(node, *parameter), None)?;
        }
        if let Some(last) = self.nodes.last_mut() {
            last.ty = Some(ty);
        }
        Ok(node)
    }

    /// The node of a term in which these variables are bound, the outermost one first.
    pub fn of_term(
        &mut self,
        alloc: Global,
        term: &Term,
        scope: &[Scoped],
    ) -> Result<usize, HostFail> {
        if let Some((function, argument)) = term.dest_comb() {
            let function = self.of_term(alloc, function, scope)?;
            let argument = self.of_term(alloc, argument, scope)?;
            let ty = self.number_of_type(alloc, term.ty())?;
            return self.push(Node::Apply(function, argument), Some(ty));
        }
        match innermost(scope, term) {
            Some(scoped) => Ok(scoped.node),
            None => self.of_symbol(alloc, term, scope),
        }
    }

    // The node of a variable, a constant or an abstraction that is not bound itself.
    fn of_symbol(
        &mut self,
        alloc: Global,
        term: &Term,
        scope: &[Scoped],
    ) -> Result<usize, HostFail> {
        let mut parameters = Vec::new(alloc);
        let closed = closed(alloc, term, scope, &mut parameters)?;
        let symbol = self.number_of_symbol(alloc, &closed, parameters.len())?;
        self.applied(alloc, symbol, &parameters, term.ty())
    }

    /// The symbol at the head of a node, and the number of its arguments; nothing where a variable stands there.
    pub fn head(&self, node: usize) -> Option<(usize, u32)> {
        let mut at = node;
        for arguments in 0..DEPTH {
            match self.node(at) {
                Node::Apply(function, _) => at = function,
                Node::Symbol(symbol) => return Some((symbol, arguments)),
                Node::Variable(_) => return None,
            }
        }
        None
    }

    /// For each symbol the most arguments that it has in a node.
    pub fn most_arguments(&self, alloc: Global) -> Result<Vec<u32>, HostFail> {
        let mut all = Vec::new(alloc);
        for _ in &self.symbols {
            all.push(0)?;
        }
        for node in 0..self.nodes.len() {
            if let Some((symbol, arguments)) = self.head(node) {
                if let Some(most) = all.get_mut(symbol) {
                    *most = arguments.max(*most);
                }
            }
        }
        Ok(all)
    }

    /// Whether two nodes are the same term; what is deeper than this is not.
    pub fn is_same(&self, a: usize, b: usize, depth: u32) -> bool {
        if a == b {
            return true;
        }
        if depth == 0 {
            return false;
        }
        match (self.node(a), self.node(b)) {
            (Node::Variable(x), Node::Variable(y)) => x == y,
            (Node::Symbol(x), Node::Symbol(y)) => x == y,
            (Node::Apply(f, x), Node::Apply(g, y)) => {
                self.is_same(f, g, depth - 1) && self.is_same(x, y, depth - 1)
            }
            _ => false,
        }
    }

    /// Adds the variables of a node that are not in the list yet, from left to right. It fails on what is deeper than this.
    pub fn add_variables(
        &self,
        node: usize,
        all: &mut Vec<usize>,
        depth: u32,
    ) -> Result<(), HostFail> {
        if depth == 0 {
            return Err(HostFail::Failed);
        }
        match self.node(node) {
            Node::Variable(number) => {
                if !all.contains(&number) {
                    all.push(number)?;
                }
                Ok(())
            }
            Node::Symbol(_) => Ok(()),
            Node::Apply(function, argument) => {
                self.add_variables(function, all, depth - 1)?;
                self.add_variables(argument, all, depth - 1)
            }
        }
    }

    /// The node with each variable numbered by its place in a list. It fails on one that is not there, and on what is deeper than
    /// this.
    pub fn renumbered(
        &mut self,
        node: usize,
        order: &[usize],
        depth: u32,
    ) -> Result<usize, HostFail> {
        if depth == 0 {
            return Err(HostFail::Failed);
        }
        match self.node(node) {
            Node::Variable(number) => match place_of(order, number) {
                Some(place) => self.push(Node::Variable(place), self.type_number(node)),
                None => Err(HostFail::Failed),
            },
            Node::Symbol(_) => Ok(node),
            Node::Apply(function, argument) => {
                let function = self.renumbered(function, order, depth - 1)?;
                let argument = self.renumbered(argument, order, depth - 1)?;
                self.push(Node::Apply(function, argument), self.type_number(node))
            }
        }
    }
}

// The abstraction of a term over the bound variables that are free in it. The nodes that stand for these become the parameters.
fn closed(
    alloc: Global,
    term: &Term,
    scope: &[Scoped],
    parameters: &mut Vec<usize>,
) -> Result<Term, HostFail> {
    let mut closed = term.copy(alloc)?;
    for scoped in scope.iter().rev() {
        if is_free(scope, scoped, term) {
            closed = Term::mk_abs(alloc, &scoped.variable, &closed)?;
            parameters.push(scoped.node)?;
        }
    }
    parameters.reverse();
    Ok(closed)
}

/// The place of a number in a list.
pub fn place_of(numbers: &[usize], number: usize) -> Option<usize> {
    numbers.iter().position(|other| *other == number)
}

// The place of the symbol that stands for this term, up to the names of bound variables, with so many parameters.
fn place_of_symbol(symbols: &[Symbol], term: &Term, parameters: usize) -> Option<usize> {
    symbols.iter().position(|symbol| match symbol {
        Symbol::Known {
            term: known,
            parameters: count,
        } => *count == parameters && aconv(known, term),
        Symbol::Witness { .. } => false,
    })
}

// The innermost binder of a variable.
fn innermost<'a>(scope: &'a [Scoped], variable: &Term) -> Option<&'a Scoped> {
    scope
        .iter()
        .rev()
        .find(|scoped| aconv(&scoped.variable, variable))
}

/// Whether the variable is free in a term, and no binder further in binds the same one.
pub fn is_free(scope: &[Scoped], scoped: &Scoped, term: &Term) -> bool {
    match innermost(scope, &scoped.variable) {
        Some(other) => other.node == scoped.node && free_in(&scoped.variable, term),
        None => false,
    }
}

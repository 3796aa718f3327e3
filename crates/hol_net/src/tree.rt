// A discrimination tree: where patterns end, by the way that their symbols lead.
ghost use Rattle.std.specs.Prelude.{◌≡◌, ◌<◌, [], ◌∷◌, ◌++◌, Some, None, IfOk, IfErr, OnOk, length, map};
ghost use Rattle.hol_model.specs.Logic.Derivable.{IsMember};
ghost use Rattle.hol_model.specs.declared.fault.Fault.TheVariants.{Memory};
ghost use Rattle.hol_net.specs.Tree as spec;
ghost use Rattle.hol_net.specs.Tree.{steps_of, symbols_of, step_by, child, nodes_after, node_after, all_places, IsTree, Grows};

use hol_model::Fault;
use hol_terms::{Parts, Term};
use indexmap::IndexMap;
use std::alloc::Global;

/// What a term is at a node of it, in a walk over each node before its parts.
#[derive(Clone, Copy, PartialEq, Eq, Hash)]
pub enum Symbol {
    // A variable of a pattern, in whose place any part of a term may stand.
    Variable,
    // A constant, by the number of its name.
    Constant(usize),
    Combination,
    // An abstraction, whatever its body is.
    Abstraction,
}

/// An edge of the tree: the node from which it leads, and its symbol.
#[derive(Clone, Copy, PartialEq, Eq, Hash)]
pub struct Edge {
    pub from: usize,
    pub symbol: Symbol,
}

/// The tree: its nodes are numbers, and its root is 0.
#[derive(Drop)]
pub struct Tree {
    // The number of each name of a constant.
    pub names: IndexMap<String, usize>,
    // The node to which each edge leads.
    pub edges: IndexMap<Edge, usize>,
    // For each node, the places of the patterns that end there.
    pub ends: Vec<Vec<usize>>,
}

impl Tree {
    /// The tree of no patterns: its root alone.
    pub fn new(alloc: Global) -> Result<Tree, Fault>
        ensures tree { IfOk result IsTree }
        ensures names { IfOk result (λ tree. tree.names.entries ≡ []) }
        ensures edges { IfOk result (λ tree. tree.edges.entries ≡ []) }
        ensures root { IfOk result (λ tree. map (λ places. places.items) tree.ends.items ≡ [] ∷ []) }
        ensures err { IfErr result (λ fault. fault ≡ Memory) }
    {
        let mut ends = Vec::new(alloc);
        ends.push(Vec::new(alloc))?;
        Ok(Tree {
            names: IndexMap::new(alloc),
            edges: IndexMap::new(alloc),
            ends,
        })
    }

    // The node to which the symbol leads from a node.
    fn step(&self, from: usize, symbol: Option<Symbol>) -> Option<usize>
        ensures { result ≡ step_by (steps_of self.now) from symbol }
    {
        let symbol = symbol?;
        self.edges.get(&Edge { from, symbol }).copied()
    }

    // The symbol of a constant of this name.
    fn symbol_of(&self, name: &str) -> Option<Symbol>
        ensures { result ≡ symbols_of self.now name.now }
    {
        match self.names.get(name) {
            Some(number) => Some(Symbol::Constant(*number)),
            None => None,
        }
    }

    // The same, where the name is given a number if it has none.
    #[tactic(auto, using(crate::proofs::Growth::growing))]
    fn symbol_or_new(&mut self, alloc: Global, name: &str) -> Result<Symbol, Fault>
        requires tree { IsTree self.old }
        ensures symbol { IfOk result (λ symbol. symbols_of self.new name.now ≡ Some symbol) }
        ensures grows { Grows self.old self.new }
        ensures tree { IsTree self.new }
        ensures err { IfErr result (λ fault. fault ≡ Memory) }
    {
        match self.symbol_of(name) {
            Some(symbol) => return Ok(symbol),
            None => {}
        }
        let number = self.names.len();
        self.names.insert(String::from_str(alloc, name)?, number)?;
        Ok(Symbol::Constant(number))
    }

    // The same, where the node is made if there is none.
    #[tactic(auto, using(crate::proofs::Growth::growing))]
    fn step_or_new(&mut self, alloc: Global, from: usize, symbol: Symbol) -> Result<usize, Fault>
        requires tree { IsTree self.old }
        ensures step { IfOk result (λ to. steps_of self.new from symbol ≡ Some to) }
        ensures grows { Grows self.old self.new }
        ensures tree { IsTree self.new }
        ensures err { IfErr result (λ fault. fault ≡ Memory) }
    {
        match self.step(from, Some(symbol)) {
            Some(to) => return Ok(to),
            None => {}
        }
        let to = self.ends.len();
        self.ends.push(Vec::new(alloc))?;
        self.edges.insert(Edge { from, symbol }, to)?;
        Ok(to)
    }

    /// The node to which the pattern leads from a node, where nodes and edges are made if there are none.
    #[tactic(auto, using(crate::proofs::Growth::growing))]
    pub(crate) fn node_or_new(
        &mut self,
        alloc: Global,
        from: usize,
        pattern: &Term,
    ) -> Result<usize, Fault>
        requires tree { IsTree self.old }
        ensures leads { IfOk result (λ to. node_after (steps_of self.new) (symbols_of self.new) from pattern.now ≡ Some to) }
        ensures grows { Grows self.old self.new }
        ensures tree { IsTree self.new }
        ensures err { IfErr result (λ fault. fault ≡ Memory) }
    {
        match pattern.parts() {
            Parts::Variable(_, _) => self.step_or_new(alloc, from, Symbol::Variable),
            Parts::Constant(name, _) => {
                let symbol = self.symbol_or_new(alloc, name)?;
                self.step_or_new(alloc, from, symbol)
            }
            Parts::Combination(function, argument) => {
                let middle = self.step_or_new(alloc, from, Symbol::Combination)?;
                let next = self.node_or_new(alloc, middle, function)?;
                self.node_or_new(alloc, next, argument)
            }
            Parts::Abstraction(_, _, _) => self.step_or_new(alloc, from, Symbol::Abstraction),
        }
    }

    // Puts the node to which the symbol leads from a node behind those of a list.
    #[tactic(auto, using(crate::proofs::Walks::walking))]
    fn add_child(
        &self,
        from: usize,
        symbol: Option<Symbol>,
        found: &mut Vec<usize>,
    ) -> Result<(), Fault>
        ensures ok { OnOk result (found.new.items ≡ found.old.items ++ child (step_by (steps_of self.now) from symbol)) }
        ensures err { IfErr result (λ fault. fault ≡ Memory) }
    {
        match self.step(from, symbol) {
            Some(to) => found.push(to)?,
            None => {}
        }
        Ok(())
    }

    /// Puts the nodes to which patterns that fit the term lead from a node behind those of a list. A combination is not
    /// gone into where no pattern goes on with one, nor its argument where none goes on behind its function.
    #[tactic(auto, using(crate::proofs::Walks::going))]
    pub(crate) fn add_nodes(
        &self,
        alloc: Global,
        from: usize,
        term: &Term,
        found: &mut Vec<usize>,
    ) -> Result<(), Fault>
        ensures ok { OnOk result (found.new.items ≡ found.old.items ++ nodes_after (steps_of self.now) (symbols_of self.now) from term.now) }
        ensures err { IfErr result (λ fault. fault ≡ Memory) }
    {
        self.add_child(from, Some(Symbol::Variable), found)?;
        match term.parts() {
            Parts::Variable(_, _) => Ok(()),
            Parts::Constant(name, _) => self.add_child(from, self.symbol_of(name), found),
            Parts::Combination(function, argument) => {
                let Some(head) = self.step(from, Some(Symbol::Combination)) else {
                    return Ok(());
                };
                let mut middle = Vec::new(alloc);
                self.add_nodes(alloc, head, function, &mut middle)?;
                for next in &middle {
                    self.add_nodes(alloc, *next, argument, found)?;
                }
                Ok(())
            }
            Parts::Abstraction(_, _, _) => self.add_child(from, Some(Symbol::Abstraction), found),
        }
    }

    // The places of the patterns that end at a node.
    #[tactic(auto, using(crate::proofs::Walks::walking))]
    fn places_at(&self, node: usize) -> &[usize]
        ensures { result.now ≡ spec.places_at self.now.ends.items node }
    {
        match self.ends.get(node) {
            Some(places) => places.as_slice(),
            None => &[],
        }
    }

    /// Puts the places of the patterns that end at some nodes behind those of a list.
    #[tactic(auto, using(crate::proofs::Walks::walking))]
    pub(crate) fn add_places(&self, nodes: &[usize], found: &mut Vec<usize>) -> Result<(), Fault>
        ensures ok { OnOk result (found.new.items ≡ found.old.items ++ all_places self.now.ends.items nodes.now) }
        ensures err { IfErr result (λ fault. fault ≡ Memory) }
    {
        for node in nodes {
            found.extend_from_slice(self.places_at(*node))?;
        }
        Ok(())
    }

    /// Notes that the pattern of a place ends at a node.
    #[tactic(auto, using(crate::proofs::Growth::noting))]
    pub(crate) fn note(&mut self, node: usize, place: usize) -> Result<(), Fault>
        requires tree { IsTree self.old }
        requires within { node < length self.old.ends.items }
        ensures noted { OnOk result (IsMember place (spec.places_at self.new.ends.items node)) }
        ensures grows { Grows self.old self.new }
        ensures tree { IsTree self.new }
        ensures err { IfErr result (λ fault. fault ≡ Memory) }
    {
        self.ends[node].push(place)?;
        Ok(())
    }
}

// Terms without bound names, each with one number.
ghost use Rattle.std.specs.Prelude.{◌≡◌, ◌⊎◌, ◌+◌, ◌<◌, ◌≤◌, max, ℕ, List, [], Some, slice_get, nat_eq, length, IfOk, IfErr};
ghost use Rattle.std.specs.Option.{IfSome};
ghost use Rattle.hol_model.specs.Terms.Nameless.{free, const, bound, app, lam, same_term};
ghost use Rattle.hol_model.specs.Terms.Measures.{nameless_height, nameless_nodes};
ghost use Rattle.hol_model.specs.Logic.Checks.{has_no_free};
ghost use Rattle.hol_model.specs.declared.fault.Fault.TheVariants.{Memory, TooLarge};
ghost use Rattle.hol_check_terms.specs.Growth.{IsLonger};
ghost use Rattle.hol_check_terms.specs.Table.{HaveOneNumber};
ghost use Rattle.hol_check_terms.specs.Loose.{binders_needed};
ghost use Rattle.hol_check_terms.specs.Typed.{IsTyped, IsTypedUnderSome};
ghost use Rattle.hol_check_terms.specs.Types.{type_of_shape, PartsStandBefore};
ghost use Rattle.std.specs.Str.{bytes_eq};
ghost use Rattle.hol_model.specs.Terms.HolType.{bool_type, type_variable, function_type, declared_type, type_nodes, type_eq};
ghost use Rattle.hol_check_terms.specs.Terms.{TermTable, name_at, type_at, term_at, term_of_shape, term_of_node, TermPartsStandBefore, TermStandsAfterParts, type_table, IsGrown, IsTooLarge};

use crate::memo::{recall_type, remember_type};
use crate::types::{TypeShape, Types};
use hol_model::{Fault, TERM_HEIGHT_LIMIT, TERM_NODES_LIMIT, TYPE_NODES_LIMIT};
use indexmap::{IndexMap, IndexSet};
use std::alloc::Global;
use std::marker::Model;

/// How a term is built of a name, a type or earlier terms.
#[derive(Clone, Copy, PartialEq, Eq, Hash)]
pub enum TermShape {
    Free(usize, usize),
    Constant(usize, usize),
    Bound(usize),
    Application(usize, usize),
    Abstraction(usize, usize),
}

/// A term's shape, its height, its number of nodes as a tree, the number of binders that its bound variables need around
/// it, and whether no variable is free in it.
#[derive(Clone, Copy, PartialEq, Eq, Hash)]
pub struct TermNode {
    pub shape: TermShape,
    pub height: u32,
    pub nodes: u32,
    pub needed: u32,
    pub no_free: bool,
}

/// Terms in the order in which they came, each once, with the names and types in them. A term's number is its place.
/// Of terms that need no binders around them, the types that were worked out are kept.
#[derive(Drop)]
pub struct Terms {
    alloc: Global,
    types: Types,
    nodes: IndexSet<TermNode>,
    typed: IndexMap<usize, usize>,
}

impl Model for Terms {
    ghost use Rattle.hol_check_terms.specs.Terms.{TermTable};
    ghost use Rattle.hol_model.specs.Terms.HolTypeCode.{type_code};
    ghost use Rattle.hol_model.specs.Terms.NamelessCode.{nameless_code};
    ghost use Rattle.std.specs.Coded.{codes};

    ghost Value = { TermTable };

    ghost coded = { Prim.hlevel (codes, type_code, nameless_code) };

    ghost use Rattle.hol_check_terms.specs.TermTable.{viewed_terms, IsTermTable};

    ghost view = { viewed_terms };

    ghost invariant = { IsTermTable };
}

impl Terms {
    /// A table without names, types and terms.
    pub fn new(alloc: Global) -> Terms
        ensures names { result.names ≡ [] }
        ensures types { result.types ≡ [] }
        ensures terms { result.terms ≡ [] }
    {
        Terms {
            alloc,
            types: Types::new(alloc),
            nodes: IndexSet::new(alloc),
            typed: IndexMap::new(alloc),
        }
    }

    /// The allocator, for what is made beside names, types and terms.
    pub fn alloc(&self) -> Global {
        self.alloc
    }

    // The number of a term, which is put at the end if it is new.
    fn number_of(&mut self, node: TermNode) -> Result<usize, Fault>
        requires placed { TermStandsAfterParts (type_table self.old) (length self.old.terms) node }
        requires height { node.height ≡ nameless_height (term_of_node (type_table self.old) self.old.terms node) }
        requires nodes { node.nodes ≡ nameless_nodes (term_of_node (type_table self.old) self.old.terms node) }
        requires needed { node.needed ≡ binders_needed (term_of_node (type_table self.old) self.old.terms node) }
        requires no_free { node.no_free ≡ has_no_free (term_of_node (type_table self.old) self.old.terms node) }
        requires height_fits { node.height ≤ TERM_HEIGHT_LIMIT }
        requires nodes_fit { node.nodes ≤ TERM_NODES_LIMIT }
        ensures number { IfOk result (λ number. slice_get self.new.terms number ≡ Some (term_of_node (type_table self.old) self.old.terms node)) }
        ensures refused { IfErr result (λ fault. fault ≡ Memory) }
        ensures grows { IsGrown self.old self.new }
    {
        self.types.have_one_number();
        let (number, _) = self.nodes.insert_full(node)?;
        Ok(number)
    }

    /// How a term is built.
    pub fn shape(&self, number: usize) -> TermShape
        requires { number < length self.now.terms }
        ensures shape { term_at self.now.terms number ≡ term_of_shape (type_table self.now) self.now.terms result }
        ensures parts { TermPartsStandBefore (type_table self.now) number result }
    {
        match self.nodes.get_index(number) {
            Some(node) => node.shape,
            None => TermShape::Bound(0),
        }
    }

    /// A term's height and its number of nodes.
    pub fn size(&self, number: usize) -> (u32, u32)
        requires { number < length self.now.terms }
        ensures height { result.0 ≡ nameless_height (term_at self.now.terms number) }
        ensures nodes { result.1 ≡ nameless_nodes (term_at self.now.terms number) }
        ensures height_fits { result.0 ≤ TERM_HEIGHT_LIMIT }
        ensures nodes_fit { result.1 ≤ TERM_NODES_LIMIT }
    {
        match self.nodes.get_index(number) {
            Some(node) => (node.height, node.nodes),
            None => (1, 1),
        }
    }

    /// Whether no variable is free in a term.
    pub fn has_no_free(&self, number: usize) -> bool
        requires { number < length self.now.terms }
        ensures { result ≡ has_no_free (term_at self.now.terms number) }
    {
        match self.nodes.get_index(number) {
            Some(node) => node.no_free,
            None => true,
        }
    }

    /// The number of binders that the bound variables of a term need around it.
    pub(crate) fn binders_needed(&self, number: usize) -> u32
        requires { number < length self.now.terms }
        ensures { result ≡ binders_needed (term_at self.now.terms number) }
    {
        match self.nodes.get_index(number) {
            Some(node) => node.needed,
            None => 1,
        }
    }

    /// The type of a term, if it is kept.
    pub(crate) fn known_type(&self, number: usize) -> Option<usize>
        ensures { IfSome result (λ ty. IsTyped self.now.types (term_at self.now.terms number) ty) }
    {
        recall_type(&self.typed, number)
    }

    /// Keeps the type of a term that needs no binders around it, and hands it on.
    pub(crate) fn keep_type(&mut self, number: usize, ty: usize) -> Result<usize, Fault>
        requires number { number < length self.old.terms }
        requires closed { binders_needed (term_at self.old.terms number) ≡ 0 }
        requires typed { IsTypedUnderSome self.old.types (term_at self.old.terms number) ty }
        ensures same { IfOk result (λ same. same ≡ ty) }
        ensures refused { IfErr result (λ fault. fault ≡ Memory) }
        ensures grows { IsGrown self.old self.new }
    {
        remember_type(&mut self.typed, number, ty)
    }

    /// Whether two numbers are those of one term.
    pub fn is_same(&self, first: usize, second: usize) -> bool
        requires first { first < length self.now.terms }
        requires second { second < length self.now.terms }
        ensures { result ≡ same_term (term_at self.now.terms first) (term_at self.now.terms second) }
    {
        let _nodes = &self.nodes;
        first == second
    }

    /// The variable of a name and a type.
    pub fn free(&mut self, name: usize, ty: usize) -> Result<usize, Fault>
        requires name { name < length self.old.names }
        requires ty { ty < length self.old.types }
        ensures number { IfOk result (λ number. slice_get self.new.terms number ≡ Some (free (name_at self.old.names name) (type_at self.old.types ty))) }
        ensures refused { IfErr result (λ fault. fault ≡ Memory) }
        ensures grows { IsGrown self.old self.new }
    {
        self.number_of(TermNode {
            shape: TermShape::Free(name, ty),
            height: 1,
            nodes: 1,
            needed: 0,
            no_free: false,
        })
    }

    /// The constant of a name and a type.
    pub fn constant(&mut self, name: usize, ty: usize) -> Result<usize, Fault>
        requires name { name < length self.old.names }
        requires ty { ty < length self.old.types }
        ensures number { IfOk result (λ number. slice_get self.new.terms number ≡ Some (const (name_at self.old.names name) (type_at self.old.types ty))) }
        ensures refused { IfErr result (λ fault. fault ≡ Memory) }
        ensures grows { IsGrown self.old self.new }
    {
        self.number_of(TermNode {
            shape: TermShape::Constant(name, ty),
            height: 1,
            nodes: 1,
            needed: 0,
            no_free: true,
        })
    }

    /// The variable of the binder outside so many others.
    pub fn bound(&mut self, index: usize) -> Result<usize, Fault>
        requires { index < TERM_HEIGHT_LIMIT }
        ensures number { IfOk result (λ number. slice_get self.new.terms number ≡ Some (bound index)) }
        ensures refused { IfErr result (λ fault. fault ≡ Memory) }
        ensures grows { IsGrown self.old self.new }
    {
        self.number_of(TermNode {
            shape: TermShape::Bound(index),
            height: 1,
            nodes: 1,
            needed: index as u32 + 1,
            no_free: true,
        })
    }

    /// A function applied to an argument, refused where it passes a limit.
    pub fn application(&mut self, function: usize, argument: usize) -> Result<usize, Fault>
        requires function { function < length self.old.terms }
        requires argument { argument < length self.old.terms }
        ensures number { IfOk result (λ number. slice_get self.new.terms number ≡ Some (app (term_at self.old.terms function) (term_at self.old.terms argument))) }
        ensures refused { IfErr result (λ fault. (fault ≡ Memory) ⊎ ((fault ≡ TooLarge) × IsTooLarge (app (term_at self.old.terms function) (term_at self.old.terms argument)))) }
        ensures grows { IsGrown self.old self.new }
    {
        let (function_height, function_nodes) = self.size(function);
        let (argument_height, argument_nodes) = self.size(argument);
        let height = if function_height < argument_height {
            argument_height + 1
        } else {
            function_height + 1
        };
        let nodes = function_nodes + argument_nodes + 1;
        let function_needed = self.binders_needed(function);
        let argument_needed = self.binders_needed(argument);
        let needed = if function_needed < argument_needed {
            argument_needed
        } else {
            function_needed
        };
        let function_no_free = self.has_no_free(function);
        let argument_no_free = self.has_no_free(argument);
        if height > TERM_HEIGHT_LIMIT || nodes > TERM_NODES_LIMIT {
            return Err(Fault::TooLarge);
        }
        let number = self.number_of(TermNode {
            shape: TermShape::Application(function, argument),
            height,
            nodes,
            needed,
            no_free: function_no_free && argument_no_free,
        })?;
        Ok(number)
    }

    /// An abstraction of a body over its outermost loose variable, refused where it passes a limit.
    pub fn abstraction(&mut self, ty: usize, body: usize) -> Result<usize, Fault>
        requires ty { ty < length self.old.types }
        requires body { body < length self.old.terms }
        ensures number { IfOk result (λ number. slice_get self.new.terms number ≡ Some (lam (type_at self.old.types ty) (term_at self.old.terms body))) }
        ensures refused { IfErr result (λ fault. (fault ≡ Memory) ⊎ ((fault ≡ TooLarge) × IsTooLarge (lam (type_at self.old.types ty) (term_at self.old.terms body)))) }
        ensures grows { IsGrown self.old self.new }
    {
        let (body_height, body_nodes) = self.size(body);
        if body_height == TERM_HEIGHT_LIMIT || body_nodes == TERM_NODES_LIMIT {
            return Err(Fault::TooLarge);
        }
        let needed = self.binders_needed(body).saturating_sub(1);
        let no_free = self.has_no_free(body);
        let number = self.number_of(TermNode {
            shape: TermShape::Abstraction(ty, body),
            height: body_height + 1,
            nodes: body_nodes + 1,
            needed,
            no_free,
        })?;
        Ok(number)
    }

    /// How a type is built.
    pub fn type_shape(&self, number: usize) -> TypeShape
        requires { number < length self.now.types }
        ensures shape { type_at self.now.types number ≡ type_of_shape self.now.names self.now.types result }
        ensures parts { PartsStandBefore self.now.names number result }
    {
        self.types.shape(number)
    }

    /// The number of nodes of a type.
    pub(crate) fn type_count(&self, number: usize) -> u32
        requires { number < length self.now.types }
        ensures count { result ≡ type_nodes (type_at self.now.types number) }
        ensures within_limit { result ≤ TYPE_NODES_LIMIT }
    {
        self.types.count(number)
    }

    /// The number of a name.
    pub fn name(&mut self, name: &[u8]) -> Result<usize, Fault>
        ensures number { IfOk result (λ number. slice_get self.new.names number ≡ Some name.now) }
        ensures refused { IfErr result (λ fault. fault ≡ Memory) }
        ensures grows { IsGrown self.old self.new }
    {
        self.types.name(self.alloc, name)
    }

    /// Whether two numbers are those of one name.
    pub(crate) fn is_same_name(&self, first: usize, second: usize) -> bool
        requires first { first < length self.now.names }
        requires second { second < length self.now.names }
        ensures { result ≡ bytes_eq (name_at self.now.names first) (name_at self.now.names second) }
    {
        self.types.is_same_name(first, second)
    }

    /// Whether two numbers are those of one type.
    pub fn is_same_type(&self, first: usize, second: usize) -> bool
        requires first { first < length self.now.types }
        requires second { second < length self.now.types }
        ensures { result ≡ type_eq (type_at self.now.types first) (type_at self.now.types second) }
    {
        self.types.is_same(first, second)
    }

    /// The bytes of a name.
    pub fn name_bytes(&self, number: usize) -> &[u8]
        requires { number < length self.now.names }
        ensures { result.now ≡ name_at self.now.names number }
    {
        self.types.name_bytes(number)
    }

    /// The type of formulas.
    pub fn boolean(&mut self) -> Result<usize, Fault>
        ensures number { IfOk result (λ number. slice_get self.new.types number ≡ Some bool_type) }
        ensures refused { IfErr result (λ fault. fault ≡ Memory) }
        ensures grows { IsGrown self.old self.new }
    {
        self.types.boolean()
    }

    /// The type variable of a name.
    pub fn type_variable(&mut self, name: &[u8]) -> Result<usize, Fault>
        ensures number { IfOk result (λ number. slice_get self.new.types number ≡ Some (type_variable name.now)) }
        ensures refused { IfErr result (λ fault. fault ≡ Memory) }
        ensures grows { IsGrown self.old self.new }
    {
        self.types.variable(self.alloc, name)
    }

    /// The declared type of a name.
    pub fn declared_type(&mut self, name: &[u8]) -> Result<usize, Fault>
        ensures number { IfOk result (λ number. slice_get self.new.types number ≡ Some (declared_type name.now)) }
        ensures refused { IfErr result (λ fault. fault ≡ Memory) }
        ensures grows { IsGrown self.old self.new }
    {
        self.types.declared(self.alloc, name)
    }

    /// The type of functions from a type to a type, refused where it has more nodes than a type may have.
    pub fn function_type(&mut self, domain: usize, codomain: usize) -> Result<usize, Fault>
        requires domain { domain < length self.old.types }
        requires codomain { codomain < length self.old.types }
        ensures number { IfOk result (λ number. slice_get self.new.types number ≡ Some (function_type (type_at self.old.types domain) (type_at self.old.types codomain))) }
        ensures within_limit { IfOk result (λ _. type_nodes (function_type (type_at self.old.types domain) (type_at self.old.types codomain)) ≤ TYPE_NODES_LIMIT) }
        ensures refused { IfErr result (λ fault. (fault ≡ Memory) ⊎ ((fault ≡ TooLarge)
            × (TYPE_NODES_LIMIT < type_nodes (function_type (type_at self.old.types domain) (type_at self.old.types codomain))))) }
        ensures grows { IsGrown self.old self.new }
    {
        self.types.function(domain, codomain)
    }

    /// No type and no term has two numbers. It does nothing: a caller learns these facts from its contract.
    pub fn have_one_number(&self)
        ensures names { HaveOneNumber self.now.names }
        ensures types { HaveOneNumber self.now.types }
        ensures terms { HaveOneNumber self.now.terms }
    {
        self.types.have_one_number();
        let _nodes = &self.nodes;
    }
}

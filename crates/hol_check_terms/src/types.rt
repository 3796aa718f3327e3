// Types, each with one number.
ghost use Rattle.std.specs.Prelude.{◌≡◌, ◌⊎◌, ◌<◌, ◌≤◌, ℕ, List, [], Some, slice_get, length, IfOk, IfErr};
ghost use Rattle.hol_check_terms.specs.Table.{HaveOneNumber};
ghost use Rattle.std.specs.List.{slice_index_or};
ghost use Rattle.std.specs.Str.{bytes_eq};
ghost use Rattle.hol_model.specs.Terms.HolType.{type_variable, bool_type, function_type, declared_type, type_nodes, type_eq};
ghost use Rattle.hol_model.specs.declared.fault.Fault.TheVariants.{Memory, TooLarge};
ghost use Rattle.hol_check_terms.specs.Growth.{IsLonger};
ghost use Rattle.hol_check_terms.specs.Types.{type_of_shape, type_of_node, PartsStandBefore, StandsAfterParts};

use crate::names::Names;
use hol_model::{Fault, TYPE_NODES_LIMIT};
use indexmap::IndexSet;
use std::alloc::Global;
use std::marker::Model;

/// How a type is built of a name or of earlier types.
#[derive(Clone, Copy, PartialEq, Eq, Hash)]
pub enum TypeShape {
    Variable(usize),
    Boolean,
    Function(usize, usize),
    Declared(usize),
}

/// A type's shape, and the number of its nodes.
#[derive(Clone, Copy, PartialEq, Eq, Hash)]
pub struct TypeNode {
    pub shape: TypeShape,
    pub count: u32,
}

/// Types in the order in which they came, each once, with the names in them. A type's number is its place.
#[derive(Drop)]
pub struct Types {
    names: Names,
    nodes: IndexSet<TypeNode>,
}

impl Model for Types {
    ghost use Rattle.hol_check_terms.specs.Types.{TypeTable};
    ghost use Rattle.hol_model.specs.Terms.HolTypeCode.{type_code};
    ghost use Rattle.std.specs.Coded.{codes};

    ghost Value = { TypeTable };

    ghost coded = { Prim.hlevel (codes, type_code) };

    ghost use Rattle.hol_check_terms.specs.TypeTable.{viewed_types, IsTypeTable};

    ghost view = { viewed_types };

    ghost invariant = { IsTypeTable };
}

impl Types {
    /// A table without names and types.
    pub fn new(alloc: Global) -> Types
        ensures names { result.names ≡ [] }
        ensures types { result.types ≡ [] }
    {
        Types {
            names: Names::new(alloc),
            nodes: IndexSet::new(alloc),
        }
    }

    // The number of a type, which is put at the end if it is new.
    fn number_of(&mut self, node: TypeNode) -> Result<usize, Fault>
        requires placed { StandsAfterParts self.old.names (length self.old.types) node }
        requires counted { node.count ≡ type_nodes (type_of_node self.old.names self.old.types node) }
        requires within_limit { node.count ≤ TYPE_NODES_LIMIT }
        ensures number { IfOk result (λ number. slice_get self.new.types number ≡ Some (type_of_node self.old.names self.old.types node)) }
        ensures refused { IfErr result (λ fault. fault ≡ Memory) }
        ensures names { self.new.names ≡ self.old.names }
        ensures grows { IsLonger self.old.types self.new.types }
    {
        self.names.have_one_number();
        let (number, _) = self.nodes.insert_full(node)?;
        Ok(number)
    }

    /// How a type is built.
    pub fn shape(&self, number: usize) -> TypeShape
        requires { number < length self.now.types }
        ensures shape { slice_index_or self.now.types number bool_type ≡ type_of_shape self.now.names self.now.types result }
        ensures parts { PartsStandBefore self.now.names number result }
    {
        match self.nodes.get_index(number) {
            Some(node) => node.shape,
            None => TypeShape::Boolean,
        }
    }

    /// The number of nodes of a type.
    pub fn count(&self, number: usize) -> u32
        requires { number < length self.now.types }
        ensures count { result ≡ type_nodes (slice_index_or self.now.types number bool_type) }
        ensures within_limit { result ≤ TYPE_NODES_LIMIT }
    {
        match self.nodes.get_index(number) {
            Some(node) => node.count,
            None => 1,
        }
    }

    /// Whether two numbers are those of one type.
    pub fn is_same(&self, first: usize, second: usize) -> bool
        requires first { first < length self.now.types }
        requires second { second < length self.now.types }
        ensures { result ≡ type_eq (slice_index_or self.now.types first bool_type) (slice_index_or self.now.types second bool_type) }
    {
        let _nodes = &self.nodes;
        first == second
    }

    /// The number of the type of formulas, which is put at the end if it is new. Refused `Memory` alone.
    pub fn boolean(&mut self) -> Result<usize, Fault>
        ensures number { IfOk result (λ number. slice_get self.new.types number ≡ Some bool_type) }
        ensures refused { IfErr result (λ fault. fault ≡ Memory) }
        ensures names { self.new.names ≡ self.old.names }
        ensures grows { IsLonger self.old.types self.new.types }
    {
        self.number_of(TypeNode {
            shape: TypeShape::Boolean,
            count: 1,
        })
    }

    /// The type of functions from a type to a type, refused where it has more nodes than a type may have.
    pub(crate) fn function(&mut self, domain: usize, codomain: usize) -> Result<usize, Fault>
        requires domain { domain < length self.old.types }
        requires codomain { codomain < length self.old.types }
        ensures number { let new_type = function_type (slice_index_or self.old.types domain bool_type) (slice_index_or self.old.types codomain bool_type) in
            IfOk result (λ number. (slice_get self.new.types number ≡ Some new_type) × (type_nodes new_type ≤ TYPE_NODES_LIMIT)) }
        ensures refused { let new_type = function_type (slice_index_or self.old.types domain bool_type) (slice_index_or self.old.types codomain bool_type) in
            IfErr result (λ fault. (fault ≡ Memory) ⊎ ((fault ≡ TooLarge) × (TYPE_NODES_LIMIT < type_nodes new_type))) }
        ensures names { self.new.names ≡ self.old.names }
        ensures grows { IsLonger self.old.types self.new.types }
    {
        let count = self.count(domain) + self.count(codomain) + 1;
        if count > TYPE_NODES_LIMIT {
            return Err(Fault::TooLarge);
        }
        let number = self.number_of(TypeNode {
            shape: TypeShape::Function(domain, codomain),
            count,
        })?;
        Ok(number)
    }

    /// The type variable of a name.
    pub(crate) fn variable(&mut self, alloc: Global, name: &[u8]) -> Result<usize, Fault>
        ensures number { IfOk result (λ number. slice_get self.new.types number ≡ Some (type_variable name.now)) }
        ensures refused { IfErr result (λ fault. fault ≡ Memory) }
        ensures names { IsLonger self.old.names self.new.names }
        ensures grows { IsLonger self.old.types self.new.types }
    {
        let number = self.names.number_of(alloc, name)?;
        self.number_of(TypeNode {
            shape: TypeShape::Variable(number),
            count: 1,
        })
    }

    /// Whether two numbers are those of one name.
    pub(crate) fn is_same_name(&self, first: usize, second: usize) -> bool
        requires first { first < length self.now.names }
        requires second { second < length self.now.names }
        ensures { result ≡ bytes_eq (slice_index_or self.now.names first []) (slice_index_or self.now.names second []) }
    {
        self.names.is_same(first, second)
    }

    /// The bytes of a name.
    pub fn name_bytes(&self, number: usize) -> &[u8]
        requires { number < length self.now.names }
        ensures { result.now ≡ slice_index_or self.now.names number [] }
    {
        self.names.bytes(number)
    }

    /// The declared type of a name.
    pub fn declared(&mut self, alloc: Global, name: &[u8]) -> Result<usize, Fault>
        ensures number { IfOk result (λ number. slice_get self.new.types number ≡ Some (declared_type name.now)) }
        ensures refused { IfErr result (λ fault. fault ≡ Memory) }
        ensures names { IsLonger self.old.names self.new.names }
        ensures grows { IsLonger self.old.types self.new.types }
    {
        let number = self.names.number_of(alloc, name)?;
        self.number_of(TypeNode {
            shape: TypeShape::Declared(number),
            count: 1,
        })
    }

    /// No name and no type has two numbers. It does nothing: a caller learns these facts from its contract.
    pub fn have_one_number(&self)
        ensures names { HaveOneNumber self.now.names }
        ensures types { HaveOneNumber self.now.types }
    {
        self.names.have_one_number();
    }

    /// The number of a name.
    pub fn name(&mut self, alloc: Global, name: &[u8]) -> Result<usize, Fault>
        ensures number { IfOk result (λ number. slice_get self.new.names number ≡ Some name.now) }
        ensures refused { IfErr result (λ fault. fault ≡ Memory) }
        ensures names { IsLonger self.old.names self.new.names }
        ensures types { self.new.types ≡ self.old.types }
    {
        self.names.number_of(alloc, name)
    }
}

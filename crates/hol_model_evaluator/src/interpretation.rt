// Small models.
use crate::element::Element;
use crate::tree::TypeTree;

/// The carrier of a type variable or of a declared type.
#[derive(Drop)]
pub struct NamedCarrier<'a> {
    pub name: &'a str,
    pub elements: Vec<Element>,
}

/// The element that a free variable stands for.
#[derive(Drop)]
pub struct VariableElement<'a> {
    pub name: &'a str,
    pub ty: &'a TypeTree<'a>,
    pub element: Element,
}

/// The element that a declared constant stands for.
#[derive(Drop)]
pub struct ConstantElement<'a> {
    pub name: &'a str,
    pub element: Element,
}

/// What a model gives. A type that is not listed has the number 0 alone, a free variable the first of its carrier.
#[derive(Drop)]
pub struct Choices<'a> {
    pub type_variables: &'a [NamedCarrier<'a>],
    pub declared_types: &'a [NamedCarrier<'a>],
    pub free_variables: &'a [VariableElement<'a>],
    pub declared_constants: &'a [ConstantElement<'a>],
}

/// A model: what is given, or what an instance of a generic type gives to a definition's body.
#[derive(Drop)]
pub enum Interpretation<'a> {
    Given(&'a Choices<'a>),
    Instance(&'a TypeTree<'a>, &'a TypeTree<'a>, &'a Interpretation<'a>),
}

// Numbers and tables, the values of finite models.
ghost use Rattle.std.specs.Prelude.{◌≡◌, ◌++◌, IfOk};
ghost use Rattle.hol_model.specs.Models.Values.{number, table, values_of};
ghost use Rattle.hol_model.specs.Models.Values as values;
ghost use Rattle.hol_model_evaluator.specs.Elements.{value_of_parts};

use std::alloc::{AllocError, Global};
use std::marker::Model;
use std::rc::Rc;

/// A number, or a table with an element for each argument. Copies share their elements.
#[cycle(element)]
#[derive(Drop)]
pub struct Element {
    node: Rc<ElementNode>,
}

#[cycle(element)]
#[derive(Drop)]
enum ElementNode {
    Number(u32),
    Table(Vec<Element>),
}

/// The parts of an element.
#[derive(Clone, Copy)]
pub enum ElementParts<'a> {
    Number(u32),
    Table(&'a [Element]),
}

impl Model for Element {
    ghost use Rattle.hol_model.specs.Models.Values as values;
    ghost use Rattle.hol_model_evaluator.specs.ValueCode.{value_code, value_nodes};

    ghost Value = { values.Value };

    ghost coded = { value_code };

    ghost use Rattle.hol_model_evaluator.specs.ElementNodes.{value_of_node};

    ghost view = { λ element. value_of_node element.node.value };

    ghost size = { value_nodes };

    ghost use Rattle.hol_model_evaluator.specs.ElementDepth.{depth_le-value_nodes};

    ghost size_decreases = { λ a h. depth_le-value_nodes a.node.value };
}

impl Element {
    /// A number.
    pub fn number(alloc: Global, n: u32) -> Result<Element, AllocError>
        ensures { IfOk result (λ element. element ≡ number n) }
    {
        Ok(Element {
            node: Rc::new(alloc, ElementNode::Number(n))?,
        })
    }

    /// A table, from its elements in the order of the arguments.
    pub fn table(alloc: Global, elements: Vec<Element>) -> Result<Element, AllocError>
        ensures { IfOk result (λ element. element ≡ table elements.items) }
    {
        Ok(Element {
            node: Rc::new(alloc, ElementNode::Table(elements))?,
        })
    }

    /// The same element, by the same node.
    pub fn copy(&self) -> Result<Element, AllocError>
        ensures { IfOk result (λ element. element ≡ self.now) }
    {
        Ok(Element {
            node: self.node.clone()?,
        })
    }

    /// The parts of the element.
    pub fn parts(&self) -> ElementParts<'_>
        ensures { value_of_parts result ≡ self.now }
    {
        match &*self.node {
            ElementNode::Number(n) => ElementParts::Number(*n),
            ElementNode::Table(elements) => ElementParts::Table(elements.as_slice()),
        }
    }
}

/// Whether two elements are the same.
#[cycle(same)]
pub fn same(a: &Element, b: &Element) -> bool
    ensures { result ≡ values.same_value a.now b.now }
{
    match (a.parts(), b.parts()) {
        (ElementParts::Number(m), ElementParts::Number(n)) => m == n,
        (ElementParts::Table(xs), ElementParts::Table(ys)) => same_elements(xs, ys),
        _ => false,
    }
}

// Whether two lists of elements are the same.
#[cycle(same)]
fn same_elements(xs: &[Element], ys: &[Element]) -> bool
    ensures { result ≡ values.same_values (values_of xs.now) (values_of ys.now) }
{
    match xs {
        [] => match ys {
            [] => true,
            [_, ..] => false,
        },
        [x, rest @ ..] => match ys {
            [] => false,
            [y, others @ ..] => same(x, y) && same_elements(rest, others),
        },
    }
}

/// Copies of some elements.
pub fn copies(alloc: Global, elements: &[Element]) -> Result<Vec<Element>, AllocError>
    ensures { IfOk result (λ copied. copied.items ≡ elements.now) }
{
    let mut copied = Vec::new(alloc);
    push_copies(&mut copied, elements)?;
    Ok(copied)
}

/// Adds copies of some elements at the end.
pub fn push_copies(out: &mut Vec<Element>, elements: &[Element]) -> Result<(), AllocError>
    ensures { IfOk result (λ _. out.new.items ≡ out.old.items ++ elements.now) }
{
    match elements {
        [] => Ok(()),
        [first, rest @ ..] => {
            let copied = first.copy()?;
            out.push(copied)?;
            push_copies(out, rest)
        }
    }
}

// Variables and constants that were made for a term, so that equal ones of it share a node.
ghost use Rattle.std.specs.Prelude.{◌≡◌, IfErr, IfOk, IsTrue};
ghost use Rattle.hol_model.specs.Terms.NamedTerm.{variable, constant};
ghost use Rattle.hol_model.specs.declared.fault.Fault.TheVariants.{Memory};

use hol_model::Fault;
use hol_terms::{Parts, Term, same_variable};
use hol_types::Ty;
use std::alloc::Global;

// How many of them are kept: to look one up costs a comparison of names with each.
const LEAVES_KEPT: usize = 8;

/// The first variables and constants of a term.
#[derive(Drop)]
pub(crate) struct Leaves {
    kept: Vec<Term>,
}

// Whether the term is the variable of this name and type.
fn is_variable(term: &Term, name: &str, ty: &Ty) -> bool
    ensures { IsTrue result → term.now ≡ variable name.now ty.now }
{
    match term.parts() {
        Parts::Variable(other, other_ty) => same_variable(name, ty, other, other_ty),
        _ => false,
    }
}

// Whether the term is the constant of this name and type.
fn is_constant(term: &Term, name: &str, ty: &Ty) -> bool
    ensures { IsTrue result → term.now ≡ constant name.now ty.now }
{
    match term.parts() {
        Parts::Constant(other, other_ty) => same_variable(name, ty, other, other_ty),
        _ => false,
    }
}

// Whether both are one variable, or one constant.
fn is_same_leaf(leaf: &Term, other: &Term) -> bool
    ensures { IsTrue result → leaf.now ≡ other.now }
{
    match leaf.parts() {
        Parts::Variable(name, ty) => is_variable(other, name, ty),
        Parts::Constant(name, ty) => is_constant(other, name, ty),
        _ => false,
    }
}

impl Leaves {
    /// No leaves.
    pub(crate) fn new(alloc: Global) -> Leaves {
        Leaves {
            kept: Vec::new(alloc),
        }
    }

    /// The same variable or constant, which shares the node of an equal one that is kept.
    pub(crate) fn shared(&mut self, alloc: Global, leaf: Term) -> Result<Term, Fault>
        ensures same { IfOk result (λ shared. shared ≡ leaf) }
        ensures err { IfErr result (λ fault. fault ≡ Memory) }
    {
        for kept in self.kept.iter() {
            if is_same_leaf(kept, &leaf) {
                return kept.copy(alloc);
            }
        }
        if self.kept.len() < LEAVES_KEPT {
            self.kept.push(leaf.copy(alloc)?)?;
        }
        Ok(leaf)
    }
}

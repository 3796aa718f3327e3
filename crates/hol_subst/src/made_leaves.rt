// Variables and constants that were made at new types, so that equal ones of a term share a node.
ghost use Rattle.std.specs.Prelude.{◌≡◌, ◌<◌, [], ◌∷◌, IfOk, IfErr, IsTrue, Contains, unwrap_or};
ghost use Rattle.hol_model.specs.Terms.HolType.{type_nodes, type_put};
ghost use Rattle.hol_model.specs.Terms.NamedTerm.{variable, constant};
ghost use Rattle.hol_model.specs.declared.fault.Fault.TheVariants.{Memory, TooLarge};
ghost use Rattle.hol_subst.specs.Leaves.{leaf_of, may_be_named};

use crate::known_variables::becomes;
use crate::rebuild::{constant_of, variable_of};
use crate::touched::changes_type;
use hol_model::{Fault, TYPE_NODES_LIMIT};
use hol_terms::{Parts, Term};
use hol_types::{Ty, replaced_type};
use std::alloc::Global;

// How many of them are kept: to look one up costs a comparison of names with each.
const LEAVES_KEPT: usize = 8;

/// What has a name and a type.
#[derive(Clone, Copy)]
pub(crate) enum Leaf {
    Variable,
    Constant,
}

/// The first variables and constants that were made. Each use compares the type anew, so that nothing rests on them.
#[derive(Drop)]
pub(crate) struct MadeLeaves {
    kept: Vec<Term>,
}

// Whether the leaf is what the variable of this name becomes.
fn is_variable_after(leaf: &Term, types: &[(Ty, Ty)], name: &str, ty: &Ty) -> bool
    ensures { IsTrue result → leaf.now ≡ variable name.now (type_put types.now ty.now) }
{
    match leaf.parts() {
        Parts::Variable(new_name, new_type) => becomes(name, ty, new_name, new_type, types),
        _ => false,
    }
}

// Whether the leaf is what the constant of this name becomes.
fn is_constant_after(leaf: &Term, types: &[(Ty, Ty)], name: &str, ty: &Ty) -> bool
    ensures { IsTrue result → leaf.now ≡ constant name.now (type_put types.now ty.now) }
{
    match leaf.parts() {
        Parts::Constant(new_name, new_type) => becomes(name, ty, new_name, new_type, types),
        _ => false,
    }
}

// Whether the term is what the leaf of this name becomes.
fn is_leaf_after(term: &Term, leaf: Leaf, types: &[(Ty, Ty)], name: &str, ty: &Ty) -> bool
    ensures { IsTrue result → term.now ≡ leaf_of leaf name.now (type_put types.now ty.now) }
{
    match leaf {
        Leaf::Variable => is_variable_after(term, types, name, ty),
        Leaf::Constant => is_constant_after(term, types, name, ty),
    }
}

// The leaf of this name and type.
fn make(alloc: Global, leaf: Leaf, name: &str, ty: &Ty) -> Result<Term, Fault>
    requires { IsTrue (may_be_named leaf name.now) }
    ensures ok { IfOk result (λ term. term ≡ leaf_of leaf name.now ty.now) }
    ensures err { IfErr result (λ fault. fault ≡ Memory) }
{
    match leaf {
        Leaf::Variable => variable_of(alloc, name, ty),
        Leaf::Constant => constant_of(alloc, name, ty),
    }
}

impl MadeLeaves {
    /// None yet.
    pub(crate) fn none(alloc: Global) -> MadeLeaves {
        MadeLeaves {
            kept: Vec::new(alloc),
        }
    }

    /// The leaf of this name at its new type, or `None` where it stays.
    pub(crate) fn retyped(
        &mut self,
        alloc: Global,
        types: &[(Ty, Ty)],
        leaf: Leaf,
        name: &str,
        ty: &Ty,
    ) -> Result<Option<Term>, Fault>
        requires { IsTrue (may_be_named leaf name.now) }
        ensures ok { IfOk result (λ changed. unwrap_or changed (leaf_of leaf name.now ty.now) ≡ leaf_of leaf name.now (type_put types.now ty.now)) }
        ensures too_large { result ≡ Err TooLarge → TYPE_NODES_LIMIT < type_nodes (type_put types.now ty.now) }
        ensures refusals { IfErr result (Contains (TooLarge ∷ Memory ∷ [])) }
    {
        if !changes_type(types, ty) {
            return Ok(None);
        }
        for made in self.kept.iter() {
            if is_leaf_after(made, leaf, types, name, ty) {
                return Ok(Some(made.copy(alloc)?));
            }
        }
        match replaced_type(alloc, types, ty)? {
            Some(new_type) => {
                let made = make(alloc, leaf, name, &new_type)?;
                Ok(Some(self.keeping(alloc, made)?))
            }
            None => Ok(None),
        }
    }

    // The leaf, which is kept where there is room.
    fn keeping(&mut self, alloc: Global, leaf: Term) -> Result<Term, Fault>
        ensures ok { IfOk result (λ kept. kept ≡ leaf) }
        ensures err { IfErr result (λ fault. fault ≡ Memory) }
    {
        if self.kept.len() < LEAVES_KEPT {
            self.kept.push(leaf.copy(alloc)?)?;
        }
        Ok(leaf)
    }
}

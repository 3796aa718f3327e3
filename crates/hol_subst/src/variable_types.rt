// What is known of the types of a term's variables.
ghost use Rattle.std.specs.Prelude.{◌≡◌, ◌∷◌, [], ◌++◌, ◌&&◌, not, IfOk, IfErr, IsTrue, IsFalse, OnOk};
ghost use Rattle.std.specs.List.{list_any};
ghost use Rattle.std.specs.Option.{option_map};
ghost use Rattle.indexmap.specs.IndexMap.{get_by_text};
ghost use Rattle.hol_model.specs.Terms.HolType.{HolType, type_eq, type_put};
ghost use Rattle.hol_model.specs.Terms.NamedTerm.{NamedTerm, variable};
ghost use Rattle.hol_model.specs.declared.fault.Fault.TheVariants.{Memory};
ghost use Rattle.hol_subst.specs.Replacements.{binders_of};
ghost use Rattle.hol_subst.specs.VariableTypes as spec;
ghost use Rattle.hol_subst.specs.VariableTypes.{Admits, Widens, HasVariables, HasUnbound, Grows, types_kept, kept_types, table_of};

use crate::passed::{Passed, is_bound};
use hol_model::Fault;
use hol_terms::{Parts, Term};
use hol_types::{Ty, is_replaced_type};
use indexmap::IndexMap;
use std::alloc::Global;

// How many types of a name are kept: where its variables have more, they may have any.
const TYPES_KEPT: usize = 16;

/// The types of the variables that occur in a term, by their names, as far as they are known.
#[derive(Drop)]
pub struct VariableTypes {
    is_known: bool,
    // A name's types, or `None` where they may be any.
    by_name: IndexMap<String, Option<Vec<Ty>>>,
}

impl VariableTypes {
    /// Of these variables nothing is known.
    pub(crate) fn unknown(alloc: Global) -> VariableTypes
        ensures { (term : NamedTerm) → HasVariables (table_of result) term }
    {
        VariableTypes {
            is_known: false,
            by_name: IndexMap::new(alloc),
        }
    }

    /// The types of the variables of a term, free or bound.
    pub(crate) fn of(alloc: Global, term: &Term) -> Result<VariableTypes, Fault>
        ensures ok { IfOk result (λ types. HasVariables (table_of types) term.now) }
        ensures err { IfErr result (λ fault. fault ≡ Memory) }
    {
        let mut by_name = IndexMap::new(alloc);
        add_variables(alloc, term, &mut by_name)?;
        Ok(VariableTypes {
            is_known: true,
            by_name,
        })
    }

    /// The types of the variables that are free in a term. It takes longer to make than the table of all.
    #[tactic(auto, using(crate::proofs::Variables::free_tables))]
    pub(crate) fn free_in(alloc: Global, term: &Term) -> Result<VariableTypes, Fault>
        ensures ok { IfOk result (λ types. HasVariables (table_of types) term.now) }
        ensures err { IfErr result (λ fault. fault ≡ Memory) }
    {
        let mut by_name = IndexMap::new(alloc);
        add_free_variables(alloc, term, &Passed::Outermost, &mut by_name)?;
        Ok(VariableTypes {
            is_known: true,
            by_name,
        })
    }

    /// Whether a variable of this name and type may occur.
    pub(crate) fn admits(&self, name: &str, ty: &Ty) -> bool
        ensures { result ≡ spec.admits (table_of self.now name.now) ty.now }
    {
        match self.types_of(name) {
            None => true,
            Some(known) => contains(known, ty),
        }
    }

    /// Whether a variable of this name may occur that gets the type `ty` by a list of pairs (new, old).
    pub(crate) fn has_instance(&self, name: &str, types: &[(Ty, Ty)], ty: &Ty) -> bool
        ensures { IsFalse result → (s : HolType) → Admits (table_of self.now name.now) s → ty.now ≡ type_put types.now s → ⊥ }
    {
        match self.types_of(name) {
            None => true,
            Some(known) => becomes(known, types, ty),
        }
    }

    /// Whether a variable of this name, but not of the type `ty`, may occur that gets the type `new_type` by a list of
    /// pairs (new, old).
    pub(crate) fn has_other_instance(
        &self,
        name: &str,
        ty: &Ty,
        types: &[(Ty, Ty)],
        new_type: &Ty,
    ) -> bool
        ensures { IsFalse result → (s : HolType) → Admits (table_of self.now name.now) s → new_type.now ≡ type_put types.now s → ty.now ≡ s }
    {
        match self.types_of(name) {
            None => true,
            Some(known) => another_becomes(known, ty, types, new_type),
        }
    }

    // The types that variables of this name have, or `None` where they may have any.
    fn types_of(&self, name: &str) -> Option<&[Ty]>
        ensures { option_map (λ known. known.now) result ≡ table_of self.now name.now }
    {
        if !self.is_known {
            return None;
        }
        types_in(&self.by_name, name)
    }
}

// The types that are kept for a name, or `None` where they may be any.
fn types_in<'a>(by_name: &'a IndexMap<String, Option<Vec<Ty>>>, name: &str) -> Option<&'a [Ty]>
    ensures { option_map (λ known. known.now) result ≡ types_kept (get_by_text by_name.now name.now) }
{
    match by_name.get(name) {
        None => Some(&[]),
        Some(known) => match known {
            None => None,
            Some(known) => Some(known.as_slice()),
        },
    }
}

// Whether a type of a list becomes the type by pairs (new, old).
fn becomes(known: &[Ty], types: &[(Ty, Ty)], ty: &Ty) -> bool
    ensures { result ≡ list_any (λ s. type_eq ty.now (type_put types.now s)) known.now }
{
    known.iter().any(|s| is_replaced_type(types, s, ty))
}

// Whether a type of a list, but not the type `ty`, becomes the new one by pairs (new, old).
fn another_becomes(known: &[Ty], ty: &Ty, types: &[(Ty, Ty)], new_type: &Ty) -> bool
    ensures { result ≡ list_any (λ s. not (type_eq s ty.now) && type_eq new_type.now (type_put types.now s)) known.now }
{
    known
        .iter()
        .any(|s| !s.eq(ty) && is_replaced_type(types, s, new_type))
}

// Puts the variables of a term, free or bound, into the table.
#[tactic(auto, using(crate::proofs::Variables::tables))]
fn add_variables(
    alloc: Global,
    term: &Term,
    by_name: &mut IndexMap<String, Option<Vec<Ty>>>,
) -> Result<(), Fault>
    ensures grows { OnOk result (Grows (kept_types (get_by_text by_name.old)) (kept_types (get_by_text by_name.new))) }
    ensures has { OnOk result (HasVariables (kept_types (get_by_text by_name.new)) term.now) }
    ensures err { IfErr result (λ fault. fault ≡ Memory) }
{
    match term.parts() {
        Parts::Variable(name, ty) => add_variable(alloc, name, ty, by_name),
        Parts::Constant(_, _) => Ok(()),
        Parts::Combination(function, argument) => {
            add_variables(alloc, function, by_name)?;
            add_variables(alloc, argument, by_name)
        }
        Parts::Abstraction(name, ty, body) => {
            add_variable(alloc, name, ty, by_name)?;
            add_variables(alloc, body, by_name)
        }
    }
}

// Puts the free variables of a term, but for those that the passed binders bind, into the table.
#[tactic(auto, using(crate::proofs::Variables::free_tables))]
fn add_free_variables(
    alloc: Global,
    term: &Term,
    passed: &Passed<'_>,
    by_name: &mut IndexMap<String, Option<Vec<Ty>>>,
) -> Result<(), Fault>
    ensures grows { OnOk result (Grows (kept_types (get_by_text by_name.old)) (kept_types (get_by_text by_name.new))) }
    ensures has { OnOk result (HasUnbound (kept_types (get_by_text by_name.new)) (binders_of passed.now) term.now) }
    ensures err { IfErr result (λ fault. fault ≡ Memory) }
{
    match term.parts() {
        Parts::Variable(name, ty) => {
            add_unbound_variable(alloc, name, ty, &*passed, &mut *by_name)
        }
        Parts::Constant(_, _) => Ok(()),
        Parts::Combination(function, argument) => {
            add_free_variables(alloc, function, &*passed, &mut *by_name)?;
            add_free_variables(alloc, argument, &*passed, &mut *by_name)
        }
        Parts::Abstraction(name, ty, body) => add_free_variables(
            alloc,
            body,
            &Passed::Under(name, ty, &*passed),
            &mut *by_name,
        ),
    }
}

#[tactic(auto, using(crate::proofs::Variables::free_tables))]
fn add_unbound_variable(
    alloc: Global,
    name: &str,
    ty: &Ty,
    passed: &Passed<'_>,
    by_name: &mut IndexMap<String, Option<Vec<Ty>>>,
) -> Result<(), Fault>
    ensures grows { OnOk result (Grows (kept_types (get_by_text by_name.old)) (kept_types (get_by_text by_name.new))) }
    ensures has { OnOk result (HasUnbound (kept_types (get_by_text by_name.new)) (binders_of passed.now) (variable name.now ty.now)) }
    ensures err { IfErr result (λ fault. fault ≡ Memory) }
{
    if !admits(&*by_name, name, ty) && is_bound(&*passed, name, ty) {
        return Ok(());
    }
    add_variable(alloc, name, ty, by_name)
}

fn add_variable(
    alloc: Global,
    name: &str,
    ty: &Ty,
    by_name: &mut IndexMap<String, Option<Vec<Ty>>>,
) -> Result<(), Fault>
    ensures grows { OnOk result (Grows (kept_types (get_by_text by_name.old)) (kept_types (get_by_text by_name.new))) }
    ensures has { OnOk result (Admits (kept_types (get_by_text by_name.new) name.now) ty.now) }
    ensures err { IfErr result (λ fault. fault ≡ Memory) }
{
    if admits(&*by_name, name, ty) {
        return Ok(());
    }
    let types = types_with(alloc, &*by_name, name, ty)?;
    by_name.insert(String::from_str(alloc, name)?, types)?;
    Ok(())
}

// Whether the variable is in the table.
#[tactic(auto, using(crate::proofs::Variables::known_types))]
fn admits(by_name: &IndexMap<String, Option<Vec<Ty>>>, name: &str, ty: &Ty) -> bool
    ensures { IsTrue result → Admits (types_kept (get_by_text by_name.now name.now)) ty.now }
{
    match types_in(by_name, name) {
        None => true,
        Some(known) => contains(known, ty),
    }
}

fn contains(known: &[Ty], ty: &Ty) -> bool
    ensures { result ≡ list_any (type_eq ty.now) known.now }
{
    known.iter().any(|s| ty.eq(s))
}

// The types of a name's variables once there is one of this type: any, where they are too many to be kept.
#[tactic(auto, using(crate::proofs::Variables::known_types))]
fn types_with(
    alloc: Global,
    by_name: &IndexMap<String, Option<Vec<Ty>>>,
    name: &str,
    ty: &Ty,
) -> Result<Option<Vec<Ty>>, Fault>
    ensures admits { IfOk result (λ types. Admits (types_kept (Some types)) ty.now) }
    ensures widens { IfOk result (λ types. Widens (types_kept (get_by_text by_name.now name.now)) (types_kept (Some types))) }
    ensures err { IfErr result (λ fault. fault ≡ Memory) }
{
    match types_in(by_name, name) {
        Some(known) if known.len() < TYPES_KEPT => Ok(Some(with_type(alloc, known, ty)?)),
        _ => Ok(None),
    }
}

// The types and one more.
fn with_type(alloc: Global, known: &[Ty], ty: &Ty) -> Result<Vec<Ty>, Fault>
    ensures ok { IfOk result (λ types. types.items ≡ known.now ++ ty.now ∷ []) }
    ensures err { IfErr result (λ fault. fault ≡ Memory) }
{
    let mut types = Vec::new(alloc);
    for s in known {
        types.push(s.copy(alloc)?)?;
    }
    types.push(ty.copy(alloc)?)?;
    Ok(types)
}

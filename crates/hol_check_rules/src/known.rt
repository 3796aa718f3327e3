// Which types and constants the entries so far have given.
ghost use Rattle.std.specs.Prelude.{◌≡◌, ◌<◌, ◌∷◌, length, IfErr, OnOk, OnErr};
ghost use Rattle.std.specs.Option.{option_map, IfSome};
ghost use Rattle.hol_model.specs.Logic.Theory as theory;
ghost use Rattle.hol_model.specs.Logic.Theory.{Theory, Entry, declaration_of_type};
ghost use Rattle.hol_model.specs.declared.fault.Fault.TheVariants.{Memory};
ghost use Rattle.hol_model.specs.Logic.KnownTerm as spec;
ghost use Rattle.hol_model.specs.Logic.Legality as legality;
ghost use Rattle.hol_model.specs.Logic.Checks as checks;
ghost use Rattle.hol_check_terms.specs.Terms.{TermTable, name_at, type_at};
ghost use Rattle.hol_check_rules.specs.Known.{Knows, HasTheory, GivesConstant};

use hol_check_terms::matching::is_instance;
use hol_check_terms::terms::Terms;
use hol_check_terms::types::TypeShape;
use hol_model::Fault;
use indexmap::{IndexMap, IndexSet};

/// The constants with their generic types, and the declared types, by numbers.
#[derive(Drop)]
pub struct Known {
    pub constants: IndexMap<usize, usize>,
    pub declared: IndexSet<usize>,
}

/// The generic type of a constant.
pub(crate) fn generic_type(terms: &Terms, known: &Known, name: usize) -> Option<usize>
    requires { name < length terms.now.names }
    ensures generic { (entries : Theory) → Knows terms.now known.now.constants.entries known.now.declared.keys entries
        → option_map (type_at terms.now.types) result ≡ theory.generic_type entries (name_at terms.now.names name) }
    ensures within { (entries : Theory) → Knows terms.now known.now.constants.entries known.now.declared.keys entries → IfSome result (λ ty. ty < length terms.now.types) }
{
    terms.have_one_number();
    match known.constants.get(&name) {
        Some(ty) => Some(*ty),
        None => None,
    }
}

/// Whether a type of this name was declared.
pub fn is_declared(terms: &Terms, known: &Known, name: usize) -> bool
    requires { name < length terms.now.names }
    ensures { (entries : Theory) → Knows terms.now known.now.constants.entries known.now.declared.keys entries → result ≡ spec.is_declared entries (name_at terms.now.names name) }
{
    terms.have_one_number();
    known.declared.contains(&name)
}

/// Whether each declared type in a type is known.
pub(crate) fn knows_type(terms: &Terms, known: &Known, ty: usize) -> bool
    requires { ty < length terms.now.types }
    ensures { (entries : Theory) → Knows terms.now known.now.constants.entries known.now.declared.keys entries → result ≡ spec.knows_type entries (type_at terms.now.types ty) }
{
    match terms.type_shape(ty) {
        TypeShape::Variable(_name) => true,
        TypeShape::Boolean => true,
        TypeShape::Declared(name) => is_declared(terms, known, name),
        TypeShape::Function(domain, codomain) => knows_type(terms, known, domain)
            && knows_type(terms, known, codomain),
    }
}

/// Whether a name stands for no constant and no declared type yet.
pub fn is_new_name(terms: &Terms, known: &Known, name: usize) -> bool
    requires { name < length terms.now.names }
    ensures { (entries : Theory) → Knows terms.now known.now.constants.entries known.now.declared.keys entries → result ≡ legality.is_new_name entries (name_at terms.now.names name) }
{
    match generic_type(terms, known, name) {
        Some(_ty) => false,
        None => !is_declared(terms, known, name),
    }
}

/// Whether a constant is there, at an instance of its generic type.
pub fn knows_constant(terms: &Terms, known: &Known, name: usize, ty: usize) -> bool
    requires name { name < length terms.now.names }
    requires ty { ty < length terms.now.types }
    requires known { HasTheory terms.now known.now.constants.entries known.now.declared.keys }
    ensures { (entries : Theory) → Knows terms.now known.now.constants.entries known.now.declared.keys entries
        → result ≡ checks.knows_constant entries (name_at terms.now.names name) (type_at terms.now.types ty) }
{
    match generic_type(terms, known, name) {
        Some(generic) => is_instance(terms, generic, ty),
        None => false,
    }
}

/// Adds a constant of a new name with its generic type.
pub fn add_constant(known: &mut Known, name: usize, ty: usize) -> Result<(), Fault>
    ensures added { OnOk result ((table : TermTable) (entries : Theory) (entry : Entry) → GivesConstant table entry entries name ty
        → Knows table known.old.constants.entries known.old.declared.keys entries
        → Knows table known.new.constants.entries known.new.declared.keys (entry ∷ entries)) }
    ensures refused { IfErr result (λ fault. fault ≡ Memory) }
    ensures kept { OnErr result ((table : TermTable) (entries : Theory) → Knows table known.old.constants.entries known.old.declared.keys entries
        → Knows table known.new.constants.entries known.new.declared.keys entries) }
{
    known.constants.insert(name, ty)?;
    Ok(())
}

/// Adds a declared type of a new name.
pub fn add_type(known: &mut Known, name: usize) -> Result<(), Fault>
    ensures added { OnOk result ((table : TermTable) (entries : Theory) → name < length table.names → Knows table known.old.constants.entries known.old.declared.keys entries
        → Knows table known.new.constants.entries known.new.declared.keys (declaration_of_type (name_at table.names name) ∷ entries)) }
    ensures refused { IfErr result (λ fault. fault ≡ Memory) }
    ensures kept { OnErr result ((table : TermTable) (entries : Theory) → Knows table known.old.constants.entries known.old.declared.keys entries
        → Knows table known.new.constants.entries known.new.declared.keys entries) }
{
    known.declared.insert_full(name)?;
    Ok(())
}

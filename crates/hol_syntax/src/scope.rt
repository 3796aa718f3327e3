// What the names of a text stand for.
ghost use Rattle.std.specs.Prelude.{◌≡◌, ◌↔◌, [], ◌∷◌, Some, None, true, false, Err, IfOk, IfErr, OnOk, OnErr, IsSome, IsTrue, Contains};
ghost use Rattle.std.specs.Option.{option_map};
ghost use Rattle.hol_model.specs.Logic.Theory.{equality_type, choice_type, type_a};
ghost use Rattle.hol_model.specs.declared.fault.Fault.TheVariants.{Memory, NameTaken};
ghost use Rattle.hol_syntax.specs.Scope.{scope_of, IsStart, SetsConstant, SetsVariable, SetsType, KeepsScope};

use hol_model::Fault;
use hol_types::Ty;
use std::alloc::Global;
use std::collections::{HashMap, HashSet};

/// The constants with their generic types, the declared variables with their types, and the declared types.
#[derive(Drop)]
pub struct Scope {
    constants: HashMap<String, Ty>,
    variables: HashMap<String, Ty>,
    types: HashSet<String>,
}

// The type `A->A->bool`.
fn equality_of_a(alloc: Global) -> Result<Ty, Fault>
    ensures ok { IfOk result (λ ty. ty ≡ equality_type type_a) }
    ensures err { IfErr result (λ fault. fault ≡ Memory) }
{
    let a = Ty::tyvar(alloc, "A")?;
    let predicate = Ty::fun(alloc, &a, &Ty::boolean(alloc)?)?;
    Ty::fun(alloc, &a, &predicate)
}

// The type `(A->bool)->A`.
fn choice_of_a(alloc: Global) -> Result<Ty, Fault>
    ensures ok { IfOk result (λ ty. ty ≡ choice_type type_a) }
    ensures err { IfErr result (λ fault. fault ≡ Memory) }
{
    let a = Ty::tyvar(alloc, "A")?;
    let predicate = Ty::fun(alloc, &a, &Ty::boolean(alloc)?)?;
    Ty::fun(alloc, &predicate, &a)
}

impl Scope {
    /// The logic's own constants alone: `=` and `@`.
    pub fn new(alloc: Global) -> Result<Scope, Fault>
        ensures ok { IfOk result (λ scope. IsStart (scope_of scope)) }
        ensures err { IfErr result (λ fault. fault ≡ Memory) }
    {
        let mut scope = Scope {
            constants: HashMap::new(alloc),
            variables: HashMap::new(alloc),
            types: HashSet::new(alloc),
        };
        scope.set_const(alloc, "=", equality_of_a(alloc)?)?;
        scope.set_const(alloc, "@", choice_of_a(alloc)?)?;
        Ok(scope)
    }

    // Sets the generic type of a constant.
    fn set_const(&mut self, alloc: Global, name: &str, ty: Ty) -> Result<(), Fault>
        ensures ok { OnOk result (SetsConstant (scope_of self.old) (scope_of self.new) name.now (Some ty)) }
        ensures err { IfErr result (λ fault. fault ≡ Memory) }
    {
        let key = String::from_str(alloc, name)?;
        self.constants.insert(key, ty)?;
        Ok(())
    }

    /// The generic type of a constant.
    pub fn const_type(&self, name: &str) -> Option<&Ty>
        ensures { option_map (λ ty. ty.now) result ≡ (scope_of self.now).generic_type name.now }
    {
        self.constants.get(name)
    }

    /// The type of a declared variable.
    pub fn var_type(&self, name: &str) -> Option<&Ty>
        ensures { option_map (λ ty. ty.now) result ≡ (scope_of self.now).variable_type name.now }
    {
        self.variables.get(name)
    }

    /// Whether a type is declared.
    pub fn has_type(&self, name: &str) -> bool
        ensures { result ≡ (scope_of self.now).declares_type name.now }
    {
        self.types.contains(name)
    }

    /// Declares a variable, in place of an earlier one of the name.
    pub fn set_var(&mut self, alloc: Global, name: &str, ty: &Ty) -> Result<(), Fault>
        ensures ok { OnOk result (SetsVariable (scope_of self.old) (scope_of self.new) name.now ty.now) }
        ensures err { IfErr result (λ fault. fault ≡ Memory) }
        ensures kept { OnErr result (KeepsScope (scope_of self.old) (scope_of self.new)) }
    {
        let key = String::from_str(alloc, name)?;
        self.variables.insert(key, ty.copy(alloc)?)?;
        Ok(())
    }

    /// Puts a constant in.
    pub fn add_const(&mut self, alloc: Global, name: &str, ty: &Ty) -> Result<(), Fault>
        ensures ok { OnOk result (SetsConstant (scope_of self.old) (scope_of self.new) name.now (Some ty.now)) }
        ensures taken { (result ≡ Err NameTaken) ↔ IsSome ((scope_of self.old).generic_type name.now) }
        ensures refusals { IfErr result (Contains (NameTaken ∷ Memory ∷ [])) }
        ensures kept { OnErr result (KeepsScope (scope_of self.old) (scope_of self.new)) }
    {
        if self.const_type(name).is_some() {
            return Err(Fault::NameTaken);
        }
        let key = String::from_str(alloc, name)?;
        self.constants.insert(key, ty.copy(alloc)?)?;
        Ok(())
    }

    /// Takes a constant out, if it is there.
    pub fn remove_const(&mut self, name: &str)
        ensures { SetsConstant (scope_of self.old) (scope_of self.new) name.now None }
    {
        self.constants.remove(name);
    }

    /// Declares a type.
    pub fn add_type(&mut self, alloc: Global, name: &str) -> Result<(), Fault>
        ensures ok { OnOk result (SetsType (scope_of self.old) (scope_of self.new) name.now true) }
        ensures taken { (result ≡ Err NameTaken) ↔ IsTrue ((scope_of self.old).declares_type name.now) }
        ensures refusals { IfErr result (Contains (NameTaken ∷ Memory ∷ [])) }
        ensures kept { OnErr result (KeepsScope (scope_of self.old) (scope_of self.new)) }
    {
        if self.has_type(name) {
            return Err(Fault::NameTaken);
        }
        let key = String::from_str(alloc, name)?;
        self.types.insert(key)?;
        Ok(())
    }

    /// Takes a declared type out, if it is there.
    pub fn remove_type(&mut self, name: &str)
        ensures { SetsType (scope_of self.old) (scope_of self.new) name.now false }
    {
        self.types.remove(name);
    }
}

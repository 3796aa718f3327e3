// What stands when a script begins: the names of the logical constants, and the stored theorems.
ghost use Rattle.std.specs.Prelude.{◌≡◌, Some, OnOk, IfOk, IfErr, drop};
ghost use Rattle.hol_model.specs.Logic.Logic as logic;
ghost use Rattle.hol_model.specs.Logic.Logic.{logical_definitions};
ghost use Rattle.hol_model.specs.Logic.Theory.{type_a};
ghost use Rattle.hol_model.specs.declared.fault.Fault.TheVariants.{Memory};
ghost use Rattle.hol_syntax.specs.Scope.{scope_of, SetsConstant};
ghost use Rattle.hol_script_session.specs.Beginning.{IsScopeOf};

use hol_model::Fault;
use hol_prelude::numbers;
use hol_syntax::Scope;
use hol_types::Ty;
use std::alloc::Global;

/// The theorems that are stored when a script begins, in order: the name of each, and its number among those of the prelude.
pub(crate) const STORED: [(&str, usize); 12] = [
    ("T_DEF", 0),
    ("AND_DEF", 1),
    ("IMP_DEF", 2),
    ("FORALL_DEF", 3),
    ("EXISTS_DEF", 4),
    ("OR_DEF", 5),
    ("F_DEF", 6),
    ("NOT_DEF", 7),
    ("TRUTH", 8),
    ("ETA_AX", numbers::ETA_AX),
    ("SELECT_AX", numbers::SELECT_AX),
    ("EXCLUDED_MIDDLE", 35),
];

// The type `bool->bool`.
fn unary_type(alloc: Global) -> Result<Ty, Fault>
    ensures ok { IfOk result (λ ty. ty ≡ logic.unary) }
    ensures err { IfErr result (λ fault. fault ≡ Memory) }
{
    let boolean = Ty::boolean(alloc)?;
    Ty::fun(alloc, &boolean, &boolean)
}

// The type `bool->bool->bool`.
fn binary_type(alloc: Global) -> Result<Ty, Fault>
    ensures ok { IfOk result (λ ty. ty ≡ logic.binary) }
    ensures err { IfErr result (λ fault. fault ≡ Memory) }
{
    let boolean = Ty::boolean(alloc)?;
    Ty::fun(alloc, &boolean, &unary_type(alloc)?)
}

// The type `(A->bool)->bool`.
fn quantifier_type(alloc: Global) -> Result<Ty, Fault>
    ensures ok { IfOk result (λ ty. ty ≡ logic.quantifier type_a) }
    ensures err { IfErr result (λ fault. fault ≡ Memory) }
{
    let boolean = Ty::boolean(alloc)?;
    let a = Ty::tyvar(alloc, "A")?;
    let predicate = Ty::fun(alloc, &a, &boolean)?;
    Ty::fun(alloc, &predicate, &boolean)
}

// Puts a constant in, whose name is not taken.
fn put(scope: &mut Scope, alloc: Global, name: &str, ty: &Ty) -> Result<(), Fault>
    ensures ok { OnOk result (SetsConstant (scope_of scope.old) (scope_of scope.new) name.now (Some ty.now)) }
    ensures err { IfErr result (λ fault. fault ≡ Memory) }
{
    match scope.add_const(alloc, name, ty) {
        Ok(()) => Ok(()),
        Err(_) => Err(Fault::Memory),
    }
}

// The first four of the logical constants, over the logic's own.
fn first_constants(alloc: Global) -> Result<Scope, Fault>
    ensures ok { IfOk result (λ scope. IsScopeOf (scope_of scope) (drop 4 logical_definitions)) }
    ensures err { IfErr result (λ fault. fault ≡ Memory) }
{
    let boolean = Ty::boolean(alloc)?;
    let binary = binary_type(alloc)?;
    let quantifier = quantifier_type(alloc)?;
    let mut scope = Scope::new(alloc)?;
    put(&mut scope, alloc, "T", &boolean)?;
    put(&mut scope, alloc, "/\\", &binary)?;
    put(&mut scope, alloc, "==>", &binary)?;
    put(&mut scope, alloc, "!", &quantifier)?;
    Ok(scope)
}

/// The scope that knows the logical constants.
pub(crate) fn logical_scope(alloc: Global) -> Result<Scope, Fault>
    ensures ok { IfOk result (λ scope. IsScopeOf (scope_of scope) logical_definitions) }
    ensures err { IfErr result (λ fault. fault ≡ Memory) }
{
    let boolean = Ty::boolean(alloc)?;
    let unary = unary_type(alloc)?;
    let binary = binary_type(alloc)?;
    let quantifier = quantifier_type(alloc)?;
    let mut scope = first_constants(alloc)?;
    put(&mut scope, alloc, "?", &quantifier)?;
    put(&mut scope, alloc, "\\/", &binary)?;
    put(&mut scope, alloc, "F", &boolean)?;
    put(&mut scope, alloc, "~", &unary)?;
    Ok(scope)
}

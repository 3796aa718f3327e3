// What is known before the first line.
ghost use Rattle.std.specs.Prelude.{◌≡◌, [], Some, slice_get, IfOk, IfErr};
ghost use Rattle.hol_model.specs.declared.fault.Fault.TheVariants.{Memory};
ghost use Rattle.hol_model.specs.Logic.Theory.{equality_type, choice_type, type_a};
ghost use Rattle.hol_check_terms.specs.Terms.{IsGrown};
ghost use Rattle.hol_check_rules.specs.Known.{Knows};

use hol_check_rules::known::Known;
use hol_check_terms::terms::Terms;
use hol_model::Fault;
use indexmap::{IndexMap, IndexSet};

/// The constants `=` and `@`, and no declared type.
pub(crate) fn first_known(terms: &mut Terms) -> Result<Known, Fault>
    ensures knows { IfOk result (λ known. Knows terms.new known.constants.entries known.declared.keys []) }
    ensures refused { IfErr result (λ fault. fault ≡ Memory) }
{
    let equality = terms.name(b"=")?;
    let choice = terms.name(b"@")?;
    let (equality_ty, choice_ty) = first_types(terms)?;
    let mut constants = IndexMap::new(terms.alloc());
    constants.insert(equality, equality_ty)?;
    constants.insert(choice, choice_ty)?;
    Ok(Known {
        constants,
        declared: IndexSet::new(terms.alloc()),
    })
}

// The generic types of `=` and `@`.
fn first_types(terms: &mut Terms) -> Result<(usize, usize), Fault>
    ensures equality { IfOk result (λ types. slice_get terms.new.types types.0 ≡ Some (equality_type type_a)) }
    ensures choice { IfOk result (λ types. slice_get terms.new.types types.1 ≡ Some (choice_type type_a)) }
    ensures refused { IfErr result (λ fault. fault ≡ Memory) }
    ensures grows { IsGrown terms.old terms.new }
{
    let a = terms.type_variable(b"A")?;
    let formula = terms.boolean()?;
    let predicate = terms.function_type(a, formula)?;
    let equality = terms.function_type(a, predicate)?;
    let choice = terms.function_type(predicate, a)?;
    Ok((equality, choice))
}

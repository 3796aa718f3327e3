// Claims of stored theorems.
ghost use Rattle.std.specs.Prelude.{◌≡◌, map, IfOk, IfErr, string_bytes};
ghost use Rattle.hol_theorem_store.specs.Store.{stored_of};
ghost use Rattle.hol_model.specs.declared.fault.Fault.TheVariants.{Memory};
ghost use Rattle.hol_journal_log.specs.Claims.{claims_of};
ghost use Rattle.hol_script_session.specs.StoredClaims.{stored_claims};

use hol_journal_log::Claim;
use hol_model::Fault;
use hol_theorem_store::Store;
use std::alloc::Global;

/// A claim for each name under which a theorem is stored, in order.
pub(crate) fn claims<'a>(
    alloc: Global,
    store: &'a Store,
    names: &'a [String],
) -> Result<Vec<Claim<'a>>, Fault>
    ensures ok { IfOk result (λ claims. claims_of claims.items ≡ stored_claims ((stored_of store.now).theorems) (map string_bytes names.now)) }
    ensures err { IfErr result (λ fault. fault ≡ Memory) }
{
    let mut claims = Vec::new(alloc);
    for name in names {
        let name = name.as_str();
        if let Some(theorem) = store.get(name) {
            claims.push(Claim { name, theorem })?;
        }
    }
    Ok(claims)
}

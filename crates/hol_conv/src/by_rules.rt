// Rewriting by rules in place of the conversions without parts.

use crate::conversions::rules_conv;
use crate::leaves::{Leaves, Made};
use hol_host::Converters;
use hol_journal::Rec;
use hol_model::Fault;
use hol_rewrite::Choice;
use hol_tactic_exprs::{Conv, Fuel};
use hol_terms::Term;
use hol_theorem_library::Library;

/// Rewriting by these rules, whatever the conversion without parts. A host's conversions stand beside it, and none is called.
#[derive(Drop)]
pub(crate) struct ByRules<'a, H> {
    pub(crate) hosts: &'a H,
    pub(crate) rules: &'a [Rec],
    pub(crate) choice: &'a Choice,
}

impl<'a, H: Converters> Leaves for ByRules<'a, H> {
    ghost use Rattle.hol_model.specs.Refining.Conversions as conversions;
    ghost use Rattle.hol_prelude_derivations.specs.Derivations.{theorems};
    ghost use Rattle.hol_conv.specs.Prepared.{AreReady, stay-ready};

    ghost means = { λ leaves conversion. conversions.rules_conv (theorems leaves.rules.now) };

    ghost hosts = { λ leaves. H.conversions leaves.hosts.now };

    ghost is_ready = { λ leaves library. AreReady leaves.rules.now leaves.choice.now library };

    fn try_leaf(&self, library: &mut Library, _leaf: &Conv, t: &Term, fuel: &mut Fuel) -> Made {
        if !fuel.spend() {
            return Err(Fault::StepLimit);
        }
        rules_conv(library, self.rules, self.choice, t)
    }

    ghost stays_ready = { λ leaves old new continued ready. stay-ready leaves.rules.now leaves.choice.now old new continued ready };
}

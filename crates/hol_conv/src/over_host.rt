// The conversions without parts that expressions have.
ghost use Rattle.std.specs.Prelude.{◌≡◌, true, IfOk};
ghost use Rattle.hol_model.specs.Logic.KnownTerm.{is_known};
ghost use Rattle.hol_tactic_exprs.specs.Expressions.{conversion_of};
ghost use Rattle.hol_journal.specs.Journal.{theorem_in};
ghost use Rattle.hol_theorem_library.specs.Library.{IsLibrary, store_in};
ghost use Rattle.hol_conv.specs.Makes.{Makes, StandsOn, StandsIf};
ghost use Rattle.hol_conv.specs.OneStep.{ConvertsInStep, RewritesByName};
ghost use Rattle.hol_conv.specs.Prepared.{ArePrepared};
ghost use Rattle.hol_conv.specs.Leaves.{IsLeaf, is_made_anew};

use crate::conversions::beta_conv;
use crate::hosts::host_conv;
use crate::joins::refl_known;
use crate::leaves::{Leaves, Made};
use crate::prepared::{NamedRules, prepared_rewr_conv, rewr_conv};
use crate::preparing::prepared_for;
use hol_host::Converters;
use hol_model::Fault;
use hol_tactic_exprs::{Conv, Fuel};
use hol_terms::Term;
use hol_theorem_library::Library;

/// The conversions without parts, each as itself, over a host's conversions. The rules of some names are there.
#[derive(Drop)]
pub(crate) struct OverHost<'a, H> {
    pub(crate) hosts: &'a H,
    pub(crate) prepared: &'a [NamedRules],
}

impl<'a, H: Converters> Leaves for OverHost<'a, H> {
    ghost use Rattle.hol_conv.specs.Prepared.{ArePrepared, stay-prepared};

    ghost means = { λ leaves conversion. conversion };

    ghost hosts = { λ leaves. H.conversions leaves.hosts.now };

    ghost is_ready = { λ leaves library. ArePrepared library leaves.prepared.now };

    fn try_leaf(&self, library: &mut Library, leaf: &Conv, t: &Term, fuel: &mut Fuel) -> Made {
        if !fuel.spend() {
            return Err(Fault::StepLimit);
        }
        one_step(library, self.hosts, self.prepared, leaf, t)
    }

    ghost stays_ready = { λ leaves old new continued ready. stay-prepared leaves.prepared.now old new continued ready };
}

// REWR_CONV, by the rules that are there, or those made now.
fn rewritten(library: &mut Library, prepared: &[NamedRules], name: &str, t: &Term) -> Made
    requires library { IsLibrary library.old }
    requires prepared { ArePrepared library.old prepared.now }
    requires known { is_known library.old.recorder.theory t.now ≡ true }
    ensures makes { Makes library.old library.new result }
    ensures stands { IfOk result (StandsOn library.old.recorder.theory) }
    ensures rewrites { RewritesByName (store_in library.old) name.now t.now (theorem_in result) }
{
    match prepared_for(prepared, name) {
        Some(named) => prepared_rewr_conv(library, named, t),
        None => rewr_conv(library, name, t),
    }
}

// What a conversion without parts answers for a step.
fn one_step<H: Converters>(
    library: &mut Library,
    hosts: &H,
    prepared: &[NamedRules],
    leaf: &Conv,
    t: &Term,
) -> Made
    requires leaf { IsLeaf leaf.now }
    requires library { IsLibrary library.old }
    requires prepared { ArePrepared library.old prepared.now }
    requires known { is_known library.old.recorder.theory t.now ≡ true }
    ensures converts { ConvertsInStep library.old.recorder.theory (store_in library.old) (H.conversions hosts.now) (conversion_of leaf.now) t.now (theorem_in result) }
    ensures makes { Makes library.old library.new result }
    ensures stands { StandsIf (is_made_anew leaf.now) library.old.recorder.theory result }
{
    match leaf {
        Conv::All => refl_known(library, t),
        Conv::No => Err(Fault::ConvFails),
        Conv::Beta => beta_conv(library, t),
        Conv::Rewr(name) => rewritten(library, prepared, name, t),
        Conv::Host(name) => host_conv(library, hosts, name, t),
        Conv::Then(_, _) | Conv::OrElse(_, _) | Conv::Prefixed(_, _) => unreachable!(),
    }
}

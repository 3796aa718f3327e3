// The conversions by which refiners convert.

use hol_host::Converters;
use hol_journal::Rec;
use hol_model::Fault;
use hol_refine::Conversions;
use hol_script_inference::{apply, rewrite};
use hol_tactic_exprs::{Conv, Fuel};
use hol_terms::Term;
use hol_theorem_library::Library;
use std::alloc::Global;

/// Converts as the expressions of conversions say (hol_conv).
#[derive(Clone, Copy)]
pub(crate) struct ByExpression;

impl Conversions for ByExpression {
    fn apply<H: Converters>(
        &self,
        library: &mut Library,
        _alloc: Global,
        hosts: &H,
        conv: &Conv,
        t: &Term,
        fuel: &mut Fuel,
    ) -> Result<Rec, Fault> {
        apply(library, hosts, conv, t, fuel)
    }

    fn rewrite<H: Converters>(
        &self,
        library: &mut Library,
        _alloc: Global,
        hosts: &H,
        rules: &[Rec],
        t: &Term,
        fuel: &mut Fuel,
    ) -> Result<Rec, Fault> {
        rewrite(library, hosts, rules, t, fuel)
    }
}

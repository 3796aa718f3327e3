// What stands in front of conversions. The refiners are generic in it.
ghost use Rattle.std.specs.Prelude.{◌≡◌, true, IfOk};
ghost use Rattle.hol_model.specs.Logic.KnownTerm.{is_known};
ghost use Rattle.hol_model.specs.Refining.Conversions.{Converts, top_depth_conv, rules_conv};
ghost use Rattle.hol_tactic_exprs.specs.Expressions.{conversion_of};
ghost use Rattle.hol_journal.specs.Journal.{IsMade, theorem_in};
ghost use Rattle.hol_prelude_derivations.specs.Derivations.{AreMade, theorems};
ghost use Rattle.hol_rewrite.specs.RuleSides.{AreEquations};
ghost use Rattle.hol_theorem_library.specs.Library.{IsLibrary, IsContinued, store_in};

use hol_host::Converters;
use hol_journal::Rec;
use hol_model::Fault;
use hol_tactic_exprs::{Conv, Fuel};
use hol_terms::Term;
use hol_theorem_library::Library;
use std::alloc::Global;

/// Conversions over a library: what proves of a term that it equals another (HOL Light's equal.ml).
pub trait Conversions {
    /// What the conversion proves of a known term (hol_model, Conversions); a host's conversions may be called.
    fn apply<H: Converters>(
        &self,
        library: &mut Library,
        alloc: Global,
        hosts: &H,
        conv: &Conv,
        t: &Term,
        fuel: &mut Fuel,
    ) -> Result<Rec, Fault>
        requires library { IsLibrary library.old }
        requires known { is_known library.old.recorder.theory t.now ≡ true }
        ensures outcome { Converts library.old.recorder.theory (store_in library.old) (H.conversions hosts.now) 0 fuel.old.left (conversion_of conv.now) t.now (theorem_in result) fuel.new.left }
        ensures library { IsLibrary library.new }
        ensures continued { IsContinued library.old library.new }
        ensures made { IfOk result (IsMade library.new.recorder) };

    /// What rewriting with these rules, which are equations, from the top down, proves of a known term: TOP_DEPTH_CONV by them.
    fn rewrite<H: Converters>(
        &self,
        library: &mut Library,
        alloc: Global,
        hosts: &H,
        rules: &[Rec],
        t: &Term,
        fuel: &mut Fuel,
    ) -> Result<Rec, Fault>
        requires library { IsLibrary library.old }
        requires made { AreMade library.old.recorder rules.now }
        requires equations { AreEquations (theorems rules.now) }
        requires known { is_known library.old.recorder.theory t.now ≡ true }
        ensures outcome { Converts library.old.recorder.theory (store_in library.old) (H.conversions hosts.now) 0 fuel.old.left
            (top_depth_conv (rules_conv (theorems rules.now))) t.now (theorem_in result) fuel.new.left }
        ensures library { IsLibrary library.new }
        ensures continued { IsContinued library.old library.new }
        ensures made { IfOk result (IsMade library.new.recorder) };
}

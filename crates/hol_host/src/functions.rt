// What stands in front of a host's functions. What is above is generic in it.
ghost use Rattle.std.specs.Prelude.{◌↔◌, Contains, IsSome, IfSome};
ghost use Rattle.hol_model.specs.Refining.HostFunctions.{HostConversions, no_host_conversions};
ghost use Rattle.hol_just.specs.Steps.{goal_of};
ghost use Rattle.hol_host.specs.Host.{HostRefiners, no_host_refiners, equation_answered, step_answered};

use hol_just::{Goal, Just, Step};
use hol_model::Fault;
use hol_terms::Term;
use std::alloc::{AllocError, AllocFailed, Global};

/// Why a host's function gives no answer. It is made of each fault of the library, so `?` passes want of memory on as such.
#[derive(Clone, Copy, PartialEq, Eq)]
pub enum HostFail {
    /// The function fails. ORELSE, TRY and REPEAT catch this.
    Failed,
    /// It finds no memory. The command is refused.
    Memory,
}

impl From<Fault> for HostFail {
    ghost use Rattle.std.specs.Prelude.{◌≡◌};
    ghost use Rattle.hol_host.specs.Host.{fail_of};

    ghost from_gives = { λ fault fail. fail ≡ fail_of fault };

    fn from(fault: Fault) -> HostFail {
        match fault {
            Fault::Memory => HostFail::Memory,
            _ => HostFail::Failed,
        }
    }
}

impl From<AllocError> for HostFail {
    ghost use Rattle.std.specs.Prelude.{◌≡◌};
    ghost use Rattle.hol_host.specs.declared.functions.HostFail.TheVariants.{Memory};

    ghost from_gives = { λ error fail. fail ≡ Memory };

    fn from(_error: AllocError) -> HostFail {
        HostFail::Memory
    }
}

impl<T: Drop> From<AllocFailed<T>> for HostFail {
    ghost use Rattle.std.specs.Prelude.{◌≡◌};
    ghost use Rattle.hol_host.specs.declared.functions.HostFail.TheVariants.{Memory};

    ghost from_gives = { λ error fail. fail ≡ Memory };

    fn from(_error: AllocFailed<T>) -> HostFail {
        HostFail::Memory
    }
}

/// What a conversion answers for a term: an equal one and why the two are equal, or why there is none.
pub type Equated = Result<(Term, Just), HostFail>;

/// Conversions under names. They may answer anything, and equal calls may answer differently.
pub trait Converters {
    /// Their names, and what the one of a name may answer.
    ghost conversions: { Self → HostConversions };

    /// What the conversion of this name answers for the term, where there is one.
    fn convert(&self, alloc: Global, name: &str, term: &Term) -> Option<Equated>
        ensures there { IsSome result ↔ Contains (conversions self.now).names name.now }
        ensures answer { IfSome result (λ answer. IfSome (equation_answered answer) ((conversions self.now).converts name.now term.now)) };
}

/// Refiners and conversions under names. They may answer anything, and equal calls may answer differently.
pub trait Refiners: Converters {
    /// The refiners' names, and what the one of a name may answer.
    ghost refiners: { Self → HostRefiners };

    /// What the refiner of this name answers for the goal, where there is one.
    fn refine(&self, alloc: Global, name: &str, goal: &Goal) -> Option<Result<Step, HostFail>>
        ensures there { IsSome result ↔ Contains (refiners self.now).names name.now }
        ensures answer { IfSome result (λ answer. IfSome (step_answered answer) ((refiners self.now).refines name.now (goal_of goal.now))) };
}

/// No functions.
#[derive(Clone, Copy, PartialEq, Eq)]
pub struct NoHost;

impl Converters for NoHost {
    ghost conversions = { λ host. no_host_conversions };

    fn convert(&self, _alloc: Global, _name: &str, _term: &Term) -> Option<Equated> {
        None
    }
}

impl Refiners for NoHost {
    ghost refiners = { λ host. no_host_refiners };

    fn refine(&self, _alloc: Global, _name: &str, _goal: &Goal) -> Option<Result<Step, HostFail>> {
        None
    }
}

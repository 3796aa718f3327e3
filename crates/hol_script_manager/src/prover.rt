// A session as what refiner expressions run on.

use crate::converting::ByExpression;
use crate::proving::prove;
use hol_combine::Leaves;
use hol_goals::accept;
use hol_host::Refiners;
use hol_journal::Rec;
use hol_just::{Goal, Just, Step};
use hol_model::Fault;
use hol_refine::refine;
use hol_script_inference::Session;
use hol_tactic_exprs::{Fuel, Leaf};
use hol_terms::Term;
use std::alloc::Global;

/// A session: refiners run on its library, and what names stand for stays.
#[derive(Drop)]
pub(crate) struct Prover {
    pub(crate) session: Session,
}

impl Leaves for Prover {
    ghost use Rattle.hol_theorem_library.specs.Library.{IsLibrary, store_in};
    ghost use Rattle.hol_script_manager.specs.Provers.{IsFurther, further-same, further-twice};

    ghost theory = { λ prover. prover.session.library.recorder.theory };

    ghost store = { λ prover. store_in prover.session.library };

    ghost is_ready = { λ prover. IsLibrary prover.session.library };

    ghost extends = { λ old new. IsFurther old new };

    fn refine<H: Refiners>(
        &mut self,
        _alloc: Global,
        leaf: &Leaf<Term>,
        goal: &Goal,
        host: &H,
        fuel: &mut Fuel,
    ) -> Result<Step, Fault> {
        refine(
            &mut self.session.library,
            &ByExpression,
            host,
            leaf,
            goal,
            fuel,
        )
    }

    fn accept(&mut self, _alloc: Global, goal: &Goal, step: &Step) -> Result<(), Fault> {
        let library = &mut self.session.library;
        accept(
            &mut library.recorder,
            &library.logic,
            &library.store,
            goal,
            step,
        )
    }

    ghost extends_self = { λ prover. further-same prover };

    ghost extends_twice = { λ first second third one two. further-twice first second third one two };
}

impl hol_goals::Prover for Prover {
    ghost use Rattle.hol_script_manager.specs.Provers.{further-makes};

    ghost journal = { λ prover. prover.session.library.recorder };

    fn prove(&mut self, _alloc: Global, goal: &Goal, just: &Just) -> Result<Rec, Fault> {
        prove(&mut self.session.library, goal, just)
    }

    ghost extends_makes = { λ old new further. further-makes old new further };
}

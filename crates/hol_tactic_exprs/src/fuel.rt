// A bound on steps, and the refusals that are caught.
ghost use Rattle.std.specs.Prelude.{◌≡◌, suc};
ghost use Rattle.std.specs.Bool.{OnTrue, OnFalse};
ghost use Rattle.hol_model.specs.Refining.Conversions as conversions;

use hol_model::Fault;
use std::marker::Model;

/// The steps that may still be spent.
#[derive(Drop)]
pub struct Fuel {
    left: u32,
}

impl Model for Fuel {
    ghost use Rattle.hol_tactic_exprs.specs.Steps.{Steps};

    ghost Value = { Steps };

    ghost view = { λ fuel. record { left = fuel.left } };
}

impl Fuel {
    /// So many steps.
    pub fn new(left: u32) -> Fuel
        ensures { result.left ≡ left }
    {
        Fuel { left }
    }

    /// Spends a step, where one is left; whether there was one.
    pub fn spend(&mut self) -> bool
        ensures spent { OnTrue result (self.old.left ≡ suc self.new.left) }
        ensures none { OnFalse result ((self.old.left ≡ 0) × (self.new.left ≡ 0)) }
    {
        if self.left == 0 {
            return false;
        }
        self.left -= 1;
        true
    }
}

/// Whether ORELSEC, TRY_CONV and REPEATC catch the refusal, and ORELSE, TRY and REPEAT: all but Memory, TooLarge and StepLimit.
pub fn is_caught(fault: &Fault) -> bool
    ensures { result ≡ conversions.is_caught fault.now }
{
    !matches!(*fault, Fault::Memory | Fault::TooLarge | Fault::StepLimit)
}

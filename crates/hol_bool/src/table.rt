// That the kernel's rules are those of the table of rules.
ghost use Rattle.hol_bool.specs.PrimitiveRules.{PrimitiveRulesInfer};

/// What a primitive rule or an axiom answers is what the table of rules draws from the sequents of its premises.
pub fn primitive_rules_infer()
    ensures { PrimitiveRulesInfer }
{}

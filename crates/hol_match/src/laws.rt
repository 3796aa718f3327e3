// Laws on matching. Each function does nothing: its clause is the law's statement, for callers' proofs.
ghost use Rattle.hol_model.specs.Rewrites.Matching.{EquationsMatch, FixedVariablesStay, MatchesAgree, MatchingPatternsFit};

/// A pattern that matches a term fits it.
#[tactic(auto, using(crate::proofs::Agreement::laws))]
pub fn matching_patterns_fit()
    ensures { MatchingPatternsFit }
{}

/// Two matches of a pattern with a term put the same types and terms for what stands in the pattern.
#[tactic(auto, using(crate::proofs::Agreement::laws))]
pub fn matches_agree()
    ensures { MatchesAgree }
{}

/// Where the left side of an equation matches a term, an instance of the equation has the term on its left.
#[tactic(auto, using(crate::proofs::RuleInstances::instances))]
pub fn equations_match()
    ensures { EquationsMatch }
{}

/// A match changes no more than the types of a term whose free variables are all fixed, as those of a rule's hypotheses.
#[tactic(auto, using(crate::proofs::RuleInstances::instances))]
pub fn fixed_variables_stay()
    ensures { FixedVariablesStay }
{}

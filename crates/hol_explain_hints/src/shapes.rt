// What rules, refiners and conversions want of what they are given.
use hol_explain_words::line_of;

const WANTED: &str = "\
EQT_ELIM a theorem `p <=> T`
BETA_CONV a term `(\\x:ty. b) t`
CONJUNCT1 a theorem `p /\\ q`
CONJUNCT2 a theorem `p /\\ q`
UNDISCH a theorem `p ==> q`
MP a first theorem `p ==> q`
SPEC a theorem `!x:ty. p`
DISJ_CASES a first theorem `p \\/ q`
CONTR a theorem `F`
NOT_INTRO a theorem `p ==> F`
NOT_ELIM a theorem `~p`
EXISTS a first term `?x:ty. p`
CHOOSE a first theorem `?x:ty. p`
REFL_TAC a goal `a = b` with alpha-equivalent sides
CONJ_TAC a goal `p /\\ q`
EQ_TAC a goal `p <=> q`
DISJ1_TAC a goal `p \\/ q`
DISJ2_TAC a goal `p \\/ q`
DISCH_TAC a goal `p ==> q` or `~p`
GEN_TAC a goal `!x:ty. p`
EXISTS_TAC a goal `?x:ty. p`, and a term of the type of `x`
DISJ_CASES_TAC a theorem `p \\/ q` whose hypotheses are assumptions of the goal
CHOOSE_TAC a theorem `?x:ty. p` whose hypotheses are assumptions of the goal
ACCEPT_TAC a theorem of the goal itself, whose hypotheses are assumptions of the goal
ASSUME_TAC a theorem whose hypotheses are assumptions of the goal
MP_TAC a theorem whose hypotheses are assumptions of the goal
UNDISCH_TAC an assumption of the goal
ASSUMPTION_TAC a goal that is one of its assumptions
CONV_TAC a conversion whose equation has no other hypotheses than assumptions of the goal
REWRITE_TAC theorems whose hypotheses are assumptions of the goal
RAND_CONV an application
RATOR_CONV an application
ABS_CONV an abstraction";

/// What a rule, a refiner or a conversion wants, where it asks for a form.
pub(crate) fn wanted(word: &str) -> Option<&'static str> {
    line_of(WANTED, word)
}

//! What refiners and conversions are written with: formulas taken apart and put together, rules of justifications under HOL Light's
//! names, and steps of goals.
//!
//! Nothing is claimed of the answers, since what is made of them is tested before it is used. Each function is safe and ends.
#![tactic(auto)]

mod forms;
mod goals;
mod matches;
mod proving;

pub use forms::{
    Formula, dest_eq, dest_formula, dest_imp, falsity, is_constant, mk_conj, mk_exists, mk_forall,
    mk_imp, mk_neg, truth,
};
pub use goals::{
    copy_terms, discharged, fresh, goal_frees, open_binder, push_copy, to_none, to_one, to_two,
    with_value,
};
pub use matches::{instance, value_of};
pub use proving::{
    Derivation, abs, assume, beta_conv, ccontr, choose, conj, conjunct1, conjunct2, contr,
    contradiction, deduct_antisym, disch, disj_cases, disj1, disj2, eq_mp, eqt_elim, eqt_intro,
    excluded_middle, exists, from_conjunction, generalize, inst, mk_comb, mp, named, not_elim,
    not_intro, prove_hyp, refl, refute, spec, sub, sym, trans, undisch,
};

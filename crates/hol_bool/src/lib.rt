//! Rules of the logic of truth values, derived from the kernel's rules (HOL Light's `bool.ml`). Each
//! theorem is made by a recorder's calls. A rule's contract says what it states (`outcome`), and that this is what the
//! table of rules draws from the sequents of its premises (`inferred`).
#![tactic(auto)]

mod axiom_rules;
mod conjunction_rules;
mod disjunction_rules;
mod formula_terms;
mod implication_rules;
mod middle_rules;
mod negation_rules;
mod prelude_rules;
mod table;
mod truth_rules;

pub use axiom_rules::{eta_ax, select_ax};
pub use conjunction_rules::{conj, conjunct1, conjunct2};
pub use disjunction_rules::{disj_cases, disj1, disj2};
pub use formula_terms::{
    Sides, connected_sides, equivalence, falsity, for_p_q, formula_pair, negated_part,
};
pub use implication_rules::{disch, disch_in_room, mp, mp_known, undisch};
pub use middle_rules::excluded_middle;
pub use negation_rules::{contr, contr_known, not_elim, not_intro};
pub use prelude_rules::{pass_formula, pass_known};
pub use table::primitive_rules_infer;
pub use truth_rules::{eqt_elim, eqt_intro};

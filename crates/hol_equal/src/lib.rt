//! Rules of equality, derived from the kernel's rules (HOL Light's `equal.ml`), and the kernel's rules by image. They need no constant of the logic.
#![tactic(auto)]

mod conversion;
pub mod equality;
mod lemma;
pub mod steps;

pub use conversion::converted_known;
pub use equality::{
    add_assum, add_assum_known, beta_conv, cut, cut_known, named, named_same, prove_hyp, renamed,
    sym,
};
pub use lemma::{by_fitting_lemma, instance_known};
pub use steps::{
    Made, abs, assume, assume_known, conclusion_of, eq_mp, eq_mp_known, trans, trans_known,
};

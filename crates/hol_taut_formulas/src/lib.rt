//! Formulas of the connectives over atoms: their forms, their parts, their atoms, the first row of values in which one is false,
//! and the names of the laws by which one is shown.
#![tactic(auto)]

mod connective;
mod decision;
mod falsity_test;
mod form;
mod law;
mod numbered;
mod occurrences;
mod subformulas;
mod values;

pub use connective::Connective;
pub use falsity_test::atoms_of_tautology;
pub use form::{Form, form_of};
pub use law::Law;
pub use numbered::Part;
pub use occurrences::atoms;
pub use subformulas::{Subformula, Subformulas};

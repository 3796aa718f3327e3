// The types of the logic, as shared nodes that know how many nodes lie below them.
#![tactic(auto)]

mod instance;
mod ty;
mod variables;

pub use instance::{is_instance, part_at};
pub use ty::{Ty, TypeParts};
pub use variables::{
    is_replaced_type, replaced_type, replaces_type_variables, type_subst, tyvars, with_tyvars,
};

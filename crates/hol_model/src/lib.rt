// Definitions of the logic that the contracts of several crates cite, its limits, its refusals and its devices.
#![tactic(auto)]

mod device;
mod fault;
mod laws;
mod limits;
mod name;
mod rule;
mod sink;
mod source;
mod symbol;

pub use device::DeviceFail;
pub use fault::{Cause, Fault};
pub use laws::{
    accepted_logs_are_sound, checks_decide, fill_undoes_close, logical_definitions_are_legal,
    term_order, the_legal_are_accepted, type_order, types_are_of_images,
};
pub use limits::{
    ATOMS_LIMIT, DEFINITIONS_LIMIT, DESCENTS_LIMIT, EXPRESSION_NESTING_LIMIT, HOST_FUNCTIONS_LIMIT,
    JUSTIFICATION_DEPTH_LIMIT, KEPT_EXPANSIONS_LIMIT, NUMBER_LIMIT, STEPS_LIMIT, TERM_HEIGHT_LIMIT,
    TERM_NESTING_LIMIT, TERM_NODES_LIMIT, TEXT_BYTES_LIMIT, TYPE_NESTING_LIMIT, TYPE_NODES_LIMIT,
};
pub use name::{is_constant_name, is_declared_type_name, is_identifier, is_type_variable_name};
pub use rule::Rule;
pub use sink::Sink;
pub use source::Source;
pub use symbol::Symbol;

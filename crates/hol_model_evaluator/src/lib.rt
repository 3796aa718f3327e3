// The meaning of small terms in small models, computed.
#![tactic(auto)]

mod carriers;
mod element;
mod interpretation;
mod meanings;
mod sequent;
mod table;
mod tree;
mod types;

pub use carriers::carrier;
pub use element::{Element, ElementParts, same};
pub use interpretation::{Choices, ConstantElement, Interpretation, NamedCarrier, VariableElement};
pub use meanings::term_meaning;
pub use sequent::holds_in;
pub use tree::{EntryTree, TermTree, TypeTree};

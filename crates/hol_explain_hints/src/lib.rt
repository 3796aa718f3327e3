//! What is said of a command that is refused, or accepted and suspicious, from its words, terms, theorems and goals, and where in the
//! script: `hol_explain` asks the proof manager for them. No promise stands on it.
#![tactic(auto)]

mod arguments;
mod case;
mod conversions;
mod endless;
mod goals;
mod misfits;
mod names;
mod notes;
mod parts;
mod quoted;
mod refused;
mod replaced;
mod rules;
mod said;
mod shapes;
mod steps;
mod taken;
mod unlike;

pub use arguments::{Arguments, Premise, is_looked_up, span_of};
pub use case::Case;
pub use goals::{Part, first_goal, of_part};
pub use hol_explain_words::{
    Answer, Known, Message, NoMemory, Origin, Piece, Place, Span, Told, command_of, count_of_goals,
    has_misfit, next_joint, next_member, no_command, origin_of, push_accepted, push_refusal,
    push_refused, unended, unwrapped,
};
pub use notes::{Accepted, learn, miss, next_rewriting, noted_span, push_notes, push_unchanged};
pub use refused::{of_case, plain};
pub use said::Teller;

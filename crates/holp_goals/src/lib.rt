//! Open goals, laid out for the eye: the first of several last, and of each the assumptions one by one with their numbers, a line, and
//! the conclusion, broken by its structure where it is longer than a line. Nothing is claimed of it: what a run prints is read, and
//! goals in it are printed in another form.
#![tactic(auto)]

mod declared;
mod layout;
mod view;

pub use view::View;

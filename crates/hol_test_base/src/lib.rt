//! Tests of what no contract says of the crates below sessions: the texts of faults, meanings in small models, what is shared, and that
//! ample memory is enough. They stand here, beside none of the functions, since a crate with tests of its own is proved twice.
#![tactic(auto)]

#[cfg(test)]
mod fault_tests;
#[cfg(test)]
mod meaning_tests;
#[cfg(test)]
mod size_tests;
#[cfg(test)]
mod theory_tests;

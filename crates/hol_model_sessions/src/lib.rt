//! What the texts of a script mean: the grammar of its commands, what each may answer, what a session and a run are, and what
//! the lines of a run's output say.
#![tactic(auto)]

//! The commands of the program `holp`: their words, and what each does with the files that its words name, what it prints, and the status that it
//! ends with. That the right file goes to the right call has to be read; what the calls do is told on `hol_script::run`,
//! `hol_script::converse` and `hol_check::check`. `logs_are_checked` joins the two: what the checker answers for the log of a run.
#![tactic(auto)]

mod checking;
mod command;
mod console;
mod conversing;
mod ending;
mod feed;
mod hosting;
mod laws;
mod options;
mod output;
mod refusals;
mod reviewing;
mod running;
mod scripts;
mod words;

pub use command::run_command;
pub use laws::logs_are_checked;

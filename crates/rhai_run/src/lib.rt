//! What the programs share: the command line, and how an answer or a failure is told. docs/FORMAT.md describes both.
#![tactic(auto)]

mod function_names;
pub mod run;
mod words;

pub use function_names::names_lines;
pub use run::{Failure, command_line, print_answer, read_tree};

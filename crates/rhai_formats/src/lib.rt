//! The formats of the programs: lists of tokens, and what is printed of a tree or a refusal. docs/FORMAT.md describes
//! them.
#![tactic(auto)]

pub mod answer;
pub mod escape;
pub mod lines;
pub mod list;
mod literal;
pub mod number;
pub mod print;
pub mod refused;

pub use answer::{answered, refusal};
pub use escape::Escaped;
pub use lines::read_lines;
pub use list::{ListError, TokenList, read_list};
pub use number::decimal;
pub use print::accepted;
pub use refused::Refused;

//! Readers of constructs that have a keyword: conditions, loops, `try`, and `switch`.
#![tactic(auto)]

mod construct;
mod reader;
mod switch;

pub use reader::Reader;

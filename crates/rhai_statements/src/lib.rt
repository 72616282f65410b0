//! Readers of statements: definitions, jumps, and functions.
#![tactic(auto)]

mod blocks;
mod function;
mod reader;
mod stmt;

pub use reader::Reader;

//! Leaves: they ask of tokens, or take them, without reading an expression. The cursor is here too.
#![tactic(auto)]

pub mod arms;
pub mod blocks;
pub mod constructs;
pub mod cursor;
pub mod due;
pub mod functions;
pub mod items;
pub mod keys;
pub mod links;
pub mod lists;
pub mod operators;
pub mod refusals;
pub mod statements;
pub mod strings;
pub mod tokens;

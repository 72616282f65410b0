//! JSON of trees, tokens, names and refusals. docs/JSON.md describes it.
#![tactic(auto)]

mod cases;
mod diagnostic;
mod errors;
mod fields;
mod names;
mod out;
mod printer;
mod tokens;
mod tree;

pub use diagnostic::diagnostic_json;
pub use names::names_json;
pub use tokens::tokens_json;
pub use tree::tree_json;

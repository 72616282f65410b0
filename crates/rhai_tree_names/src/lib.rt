//! Which names a function needs, by its tree alone: variables from outside, and functions called. At the root are
//! `names_of` and what it gives, `FnNames`.
#![tactic(auto)]

mod names;
mod noted;

pub use names::{FnNames, names_of};

//! Tests of the crates below the parser: calls that may run out of memory, and text mode.
#![tactic(auto)]

#[cfg(test)]
mod base_allocation;
#[cfg(test)]
mod text_allocation;
#[cfg(test)]
mod text_mode;

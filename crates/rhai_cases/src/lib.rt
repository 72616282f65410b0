//! The arms of `switch`, with their cases: what is collected of them, and the node that is made of it.
#![tactic(auto)]

pub mod arms;
mod capacity;
pub mod case_index;
mod case_search;
pub mod case_value;
pub mod digest;
pub mod literal;
pub mod switch;

pub use arms::Arms;
pub use case_value::{IntegerRange, range_of};
pub use literal::is_literal_value;
pub use switch::{ends_arm, make_switch, new_arms, no_guard, push_arm, push_default, test_cases};

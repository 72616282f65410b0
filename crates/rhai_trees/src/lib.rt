//! Operations on trees, which do not use the stream. On trees of expressions: signs, operators and links with their
//! operands, and tests of operands, of guards and of what is assigned to. On trees that hold statements: statements and
//! their blocks, constructs, and segments of interpolated strings.
#![tactic(auto)]

mod call;
pub mod chain;
pub mod construct;
pub mod guard;
pub mod kind;
pub mod link;
pub mod operator;
pub mod sign;
pub mod statement;
pub mod strings;
pub mod target;

pub use chain::{indexed_operand, test_index, test_links};
pub use guard::{test_guard, test_iterated};
pub use kind::{index_fault, is_constant, not_boolean, not_iterable};
pub use link::{Chain, Link, LinkKind};
pub use operator::make_binary;
pub use sign::make_unary;
pub use strings::{push_segment, push_text};
pub use target::{slot_of, test_target};

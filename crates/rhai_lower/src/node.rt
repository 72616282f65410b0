//! `LinkFlags` and `RangeCase`: the plain parts of nodes.

/// Marks of a link of a chain.
#[derive(Clone, Copy, PartialEq, Eq, Debug)]
pub struct LinkFlags {
    /// Whether it is written `?.` or `?[`, so that it gives unit if its object is unit.
    pub negated: bool,
    /// Whether it is a bracket that ends its chain.
    pub terminating: bool,
}

/// A range of integers of a `switch`, and the arm that it leads to.
#[derive(Clone, Copy, PartialEq, Eq, Debug)]
pub struct RangeCase {
    pub first: i64,
    pub last: i64,
    /// Whether `last` belongs to the range.
    pub is_inclusive: bool,
    /// The arm's index, from 0.
    pub index: usize,
}

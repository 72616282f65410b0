//! `ExprFilter`: which tokens are allowed in an expression.

/// Which tokens an expression may contain.
#[derive(Clone, Copy, PartialEq, Eq, Hash, Debug)]
pub enum ExprFilter {
    /// Every token.
    All,
    /// Every token except `|`, which separates the cases of a `switch`.
    AllButPipe,
}

//! `Link` and `Chain`: an operand with a list of links, while they are read. Their tree is made when the chain has
//! ended.

ghost use Rattle.std.specs.Prelude.{◌≡◌, false, length};
ghost use Rattle.rhai_lower.specs.View.{view};
ghost use Rattle.rhai_trees.specs.Linked.{is_linked};
ghost use Rattle.rhai_trees.specs.declared.link.LinkKind.TheVariants.{Dot};

use rhai_lower::{Expr, Position};

/// The kind of a link.
#[derive(Clone, Copy, PartialEq, Eq, Debug)]
pub enum LinkKind {
    /// `[..]` or `?[..]`
    Index,
    /// `.` or `?.`
    Dot,
}

/// A link of a chain.
#[derive(PartialEq, Debug, Drop)]
pub struct Link {
    pub kind: LinkKind,
    /// Whether it begins with a question mark.
    pub negated: bool,
    /// The position of its bracket or dot.
    pub pos: Position,
    /// The index, or the member after the dot, which is no chain.
    pub item: Expr,
    pub ghost member: { kind ≡ Dot → is_linked (view item) ≡ false },
}

/// A chain whose tree is not made yet, so that links may follow: what it begins with, and its links in written order.
/// Without links it stands for its root.
#[derive(PartialEq, Debug)]
pub struct Chain {
    /// The operand that the links follow.
    pub(crate) root: Expr,
    /// The links in written order.
    pub(crate) links: Vec<Link>,
    pub ghost value: { length links.items ≡ 0 → is_linked (view root) ≡ false },
}

impl Drop for Chain {
    // As derived; but a derived drop is expanded wherever a chain may be dropped, and a function clears all its locals
    // when it begins.
    #[inline(never)]
    fn drop(self) {
        let Chain { root: _, links: _ } = self;
    }
}

impl Chain {
    // The parts of the chain.
    #[inline(always)]
    pub(crate) fn into_parts(self) -> (Expr, Vec<Link>)
        ensures root { result.0 ≡ self.root }
        ensures links { result.1 ≡ self.links }
    {
        let Chain { root, links } = self;
        (root, links)
    }
}

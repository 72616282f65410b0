//! `join` and `nest` of a `Chain`: more links, and its tree. A chain is an operand followed by brackets and dots.

ghost use Rattle.std.specs.Prelude.{◌≡◌, None, Some, true, false, IfErr, IfNone, IfOk, IfSome, IsOk, OnOk};
ghost use Rattle.std.specs.Prelude.{option_map};
ghost use Rattle.rhai_lower.specs.Nodes.{position_of};
ghost use Rattle.rhai_lower.specs.View.{called, view, views};
ghost use Rattle.rhai_lower.specs.declared.expr.FnCallExpr.{out-FnCallExpr};
ghost use Rattle.rhai_grammar.specs.Causes.{MemoryIsNowhere, is_for_memory, refusal_of};
ghost use Rattle.rhai_grammar.specs.Chains.{chained, index_refusal, last_fault, link_fault, link_node};
ghost use Rattle.rhai_trees.specs.Chains.{chain_view, indexed_by, is_no_method, link_view, link_views, method_fault};
ghost use Rattle.rhai_trees.specs.Chains.{nested_view, with_next};
ghost use Rattle.rhai_trees.specs.Linked.{is_linked};

use crate::kind::index_fault;
use crate::link::{Chain, Link, LinkKind};
use rhai_grammar::{InputError, ParseError, ParseErrorType, ParseResult};
use rhai_lower::{BinaryExpr, Expr, FnCallExpr, LinkFlags, Position};
use std::alloc::{AllocError, Global};
use std::rc::RcStr;

/// A link with all later ones in its item.
#[derive(Drop)]
pub(crate) struct NestedLink {
    pub kind: LinkKind,
    /// Whether it begins with a question mark.
    pub negated: bool,
    /// The position of its bracket or dot.
    pub pos: Position,
    /// What comes after the bracket or dot.
    pub item: Expr,
}

impl Chain {
    /// A chain without links, which stands for `root`. That is no chain itself. Does not allocate.
    pub fn from_value(alloc: Global, root: Expr) -> Chain
        requires value { is_linked (view root) ≡ false }
        ensures { chain_view result ≡ view root }
    {
        let links = Vec::new(alloc);
        Chain { root, links }
    }

    /// The operand that the chain stands for, if it has no links, and otherwise the chain. Does not allocate.
    #[tactic(auto, using(crate::proofs::ChainLemmas::views_of_chains))]
    pub fn into_value(self) -> Result<Expr, Chain>
        ensures value { IfOk result (λ e. view e ≡ chain_view self) }
        ensures alone { IfOk result (λ e. is_linked (view e) ≡ false) }
        ensures chain { IfErr result (λ c. (chain_view c ≡ chain_view self)
            × (is_linked (chain_view self) ≡ true)) }
    {
        if self.links.is_empty() {
            let (root, _) = self.into_parts();
            Ok(root)
        } else {
            Err(self)
        }
    }

    /// The operand that the chain stands for, if it has no links. Does not allocate.
    #[tactic(auto, using(crate::proofs::ChainLemmas::views_of_chains))]
    pub fn value(&self) -> Option<&Expr>
        ensures value { IfSome result (λ e. view e.now ≡ chain_view self.now) }
        ensures chain { IfNone result (is_linked (chain_view self.now) ≡ true) }
    {
        if self.links.is_empty() {
            Some(&self.root)
        } else {
            None
        }
    }

    /// The position of the first bracket or dot, or without links that of the operand. Does not allocate.
    #[tactic(auto, using(crate::proofs::ChainLemmas::positions))]
    pub fn position(&self) -> Position
        ensures { result ≡ position_of (chain_view self.now) }
    {
        match self.links.first() {
            Some(link) => link.pos,
            None => self.root.position(),
        }
    }

    /// The chain with these links after its own (docs/GRAMMAR.md, "Chains"): the tree is as if there were no
    /// parentheses around what was read before.
    ///
    /// `links` are in written order. Returns `AllocError` if memory runs out.
    #[tactic(auto, using(crate::proofs::ChainLemmas::joins))]
    pub fn join(self, mut links: Vec<Link>) -> Result<Chain, AllocError>
        ensures { IfOk result (λ c. chain_view c ≡ chained (chain_view self) (link_views links.items)) }
    {
        if links.is_empty() {
            return Ok(self);
        }
        let (root, mut all) = self.into_parts();
        all.append(&mut links)?;
        Ok(Chain { root, links: all })
    }

    /// The tree of the chain, which has ended. It nests to the right: each link has what is before it on its left, and
    /// its item with all later links on its right. Only a bracket that is the last link ends its chain.
    ///
    /// Returns `AllocError` if memory runs out.
    #[tactic(auto, using(crate::proofs::ChainLemmas::views_of_chains))]
    pub fn nest(self, alloc: Global) -> Result<Expr, AllocError>
        ensures { IfOk result (λ e. view e ≡ chain_view self) }
    {
        if self.links.is_empty() {
            let (root, _) = self.into_parts();
            return Ok(root);
        }
        self.nest_links(alloc)
    }

    // The tree of a chain that has links. These are few, and a function clears all its locals when it begins;
    // so they are apart.
    #[inline(never)]
    #[tactic(auto, using(crate::proofs::ChainLemmas::nests))]
    fn nest_links(self, alloc: Global) -> Result<Expr, AllocError>
        ensures { IfOk result (λ e. view e ≡ chain_view self) }
    {
        let (root, mut links) = self.into_parts();
        let Some(end) = links.pop() else {
            return Ok(root);
        };
        let mut next = ended(end);
        let mut last = true;
        while let Some(link) = links.pop() {
            next = with_next(alloc, link, next, last)?;
            last = false;
        }
        link_node(alloc, next, last, root)
    }
}

// The last link of a chain.
fn ended(link: Link) -> NestedLink
    ensures { nested_view result ≡ link_view link }
{
    let Link {
        kind,
        negated,
        pos,
        item,
    } = link;
    NestedLink {
        kind,
        negated,
        pos,
        item,
    }
}

// A link with the next one, and so with all later ones, in its item.
fn with_next(
    alloc: Global,
    link: Link,
    next: NestedLink,
    last: bool,
) -> Result<NestedLink, AllocError>
    ensures { IfOk result (λ l. nested_view l ≡ with_next (link_view link) (nested_view next) last) }
{
    let Link {
        kind,
        negated,
        pos,
        item,
    } = link;
    let item = link_node(alloc, next, last, item)?;
    Ok(NestedLink {
        kind,
        negated,
        pos,
        item,
    })
}

// The node of a link, with what is before it on its left and its item on its right.
#[inline(always)]
#[tactic(auto, using(rhai_lower::proofs::Views::view_dot, rhai_lower::proofs::Views::view_index))]
fn link_node(alloc: Global, link: NestedLink, last: bool, before: Expr) -> Result<Expr, AllocError>
    ensures { IfOk result (λ e. view e ≡ link_node (nested_view link) last (view before) (view link.item)) }
{
    let rhs = link.item;
    let sides = Box::new(alloc, BinaryExpr { lhs: before, rhs })?;
    match link.kind {
        LinkKind::Index => {
            let flags = LinkFlags {
                negated: link.negated,
                terminating: last,
            };
            Ok(Expr::Index(sides, flags, link.pos))
        }
        LinkKind::Dot => {
            let flags = LinkFlags {
                negated: link.negated,
                terminating: false,
            };
            Ok(Expr::Dot(sides, flags, link.pos))
        }
    }
}

/// The operand for which the index in a bracket is tested, if the bracket stands after the operand `root` and the links
/// `before`: only where it stands directly after the operand. Does not allocate.
pub fn indexed_operand<'a>(root: &'a Chain, before: &[Link]) -> Option<&'a Chain>
    ensures { option_map (λ x. chain_view x.now) result ≡ indexed_by (chain_view root.now) (link_views before.now) }
{
    match before {
        [] => Some(root),
        _ => None,
    }
}

/// Refuses an index that the first bracket after an operand cannot have. `indexed` is that operand; it is none after a
/// link, where no index is tested.
///
/// The error is `MalformedIndexExpr` at the start of the index, or `OutOfMemory`.
#[tactic(auto, using(crate::proofs::ChainLemmas::linked_unknown))]
pub fn test_index(alloc: Global, indexed: Option<&Chain>, index: &Expr) -> ParseResult<()>
    ensures passes { OnOk result (index_refusal (option_map (λ x. chain_view x.now) indexed.entry) (view index.now)
        ≡ None) }
    ensures refused { IfErr result (λ e. is_for_memory e ≡ false
        → index_refusal (option_map (λ x. chain_view x.now) indexed.entry) (view index.now)
        ≡ Some (refusal_of e)) }
    ensures nowhere { IfErr result MemoryIsNowhere }
{
    let Some(operand) = indexed else {
        return Ok(());
    };
    let Some(root) = operand.value() else {
        return Ok(());
    };
    let Some(fault) = index_fault(root, index) else {
        return Ok(());
    };
    let why = RcStr::from_str(alloc, fault)?;
    Err(ParseError(
        ParseErrorType::MalformedIndexExpr(why),
        index.start_position(),
    ))
}

/// Refuses links that are not allowed as methods: `eval()` and `Fn()` without arguments, and a call with `!`. Of
/// several such links the last one is reported.
///
/// `links` are the links in written order. `eval()` and `Fn()` give `ImproperSymbol`, a call with `!` gives
/// `MalformedCapture`, each at the position of the call. If memory runs out, the error is `OutOfMemory`.
#[tactic(auto, using(crate::proofs::ChainLemmas::last_fault_push))]
pub fn test_links(alloc: Global, links: &[Link]) -> ParseResult<()>
    ensures passes { IsOk result → last_fault (link_views links.now) ≡ None }
    ensures refuses { IfErr result (λ e. is_for_memory e ≡ false → last_fault (link_views links.now)
        ≡ Some (refusal_of e)) }
    ensures nowhere { IfErr result MemoryIsNowhere }
{
    let mut rest = links;
    while let Some((last, before)) = rest.split_last() {
        test_link(alloc, last)?;
        rest = before;
    }
    Ok(())
}

// Refuses a link whose member is not allowed as a method.
#[tactic(auto, using(rhai_lower::proofs::Views::view_method_call))]
fn test_link(alloc: Global, link: &Link) -> ParseResult<()>
    ensures passes { IsOk result → link_fault (link_view link.now) ≡ None }
    ensures refuses { IfErr result (λ e. is_for_memory e ≡ false → link_fault (link_view link.now)
        ≡ Some (refusal_of e)) }
    ensures nowhere { IfErr result MemoryIsNowhere }
{
    match (link.kind, &link.item) {
        (LinkKind::Dot, Expr::MethodCall(call, pos)) => test_method(alloc, call, *pos),
        (LinkKind::Index, _) | (LinkKind::Dot, _) => Ok(()),
    }
}

// Refuses a call that is not allowed as a method.
fn test_method(alloc: Global, call: &FnCallExpr, pos: Position) -> ParseResult<()>
    ensures passes { IsOk result → method_fault (called call.now) (views (out-FnCallExpr call.now).args.items) pos
        ≡ None }
    ensures refuses { IfErr result (λ e. is_for_memory e ≡ false
        → method_fault (called call.now) (views (out-FnCallExpr call.now).args.items) pos ≡ Some (refusal_of e)) }
    ensures nowhere { IfErr result MemoryIsNowhere }
{
    if is_no_method(call) {
        let name = call.name.clone()?;
        let note = RcStr::from_str(alloc, "it cannot be called as a method")?;
        let input = InputError::ImproperSymbol(name, note);
        return Err(ParseError(ParseErrorType::BadInput(input), pos));
    }
    if call.capture_parent_scope {
        let note = RcStr::from_str(alloc, "a method cannot see the caller's scope")?;
        return Err(ParseError(ParseErrorType::MalformedCapture(note), pos));
    }
    Ok(())
}

// Whether a call is `eval()` or `Fn()`, which are not allowed as methods.
#[tactic(auto, using(crate::proofs::ChainLemmas::none_views, crate::proofs::ChainLemmas::some_views))]
fn is_no_method(call: &FnCallExpr) -> bool
    ensures { result ≡ is_no_method (called call.now) (views (out-FnCallExpr call.now).args.items) }
{
    let name = call.name.as_str();
    call.args.is_empty() && (name == "eval" || name == "Fn")
}

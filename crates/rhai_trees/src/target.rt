//! `test_target`: what may be assigned to.

ghost use Rattle.std.specs.Prelude.{length};
ghost use Rattle.std.specs.Prelude.{◌≡◌, ◌+◌, IfErr, IfNone, IfOk, IfSome, None, OnOk, Some, codes, false, option_map};
ghost use Rattle.std.specs.Int.NonZero.{non_zero_usize_get};
ghost use Rattle.std.specs.Option.{option_or};
ghost use Rattle.rhai_lower.specs.Lexemes.{lexeme};
ghost use Rattle.rhai_lower.specs.View.{named, view};
ghost use Rattle.rhai_grammar.specs.Causes.{ImproperSymbol, MemoryIsNowhere, Says, input_cause, is_for_memory};
ghost use Rattle.rhai_grammar.specs.Causes.{refusal_of};
ghost use Rattle.rhai_grammar.specs.Chains.{chain_of};
ghost use Rattle.rhai_grammar.specs.Targets.{chain_fault, invalid, is_equals, item_fault, links_fault, list_fault};
ghost use Rattle.rhai_grammar.specs.Targets.{root_fault, slot_of, target_fault, value_fault, variable_fault};
ghost use Rattle.rhai_trees.specs.Chains.{link_kind_view};

use crate::kind::is_constant;
use crate::link::LinkKind;
use rhai_grammar::{InputError, ParseError, ParseErrorType, ParseResult};
use rhai_lower::{Expr, Position, Token, VariableExpr};
use std::alloc::{AllocError, Global};
use std::num::NonZeroUsize;
use std::rc::RcStr;

/// The number of a variable's slot, counted from 1 at the latest; none if `target` is no variable with a slot.
#[tactic(auto, using(rhai_lower::proofs::Views::view_variable))]
pub fn slot_of(target: &Expr) -> Option<NonZeroUsize>
    ensures { option_map non_zero_usize_get result ≡ slot_of (view target.now) }
{
    match target {
        Expr::Variable(variable, _) => variable.index,
        _ => None,
    }
}

/// Refuses the target of an assignment that may not be assigned to. `op` is the token of the assignment. `constant`
/// says that the target is a variable whose slot is constant.
///
/// The error is `AssignmentToConstant` or `AssignmentToInvalidLHS` at what is refused; for a list of `&&`, `||` or `??`
/// before `=` it is `ImproperSymbol` at the `=`; if memory runs out, `OutOfMemory`.
pub fn test_target(
    alloc: Global,
    constant: bool,
    op: &Token,
    op_pos: Position,
    target: &Expr,
) -> ParseResult<()>
    ensures passes { OnOk result (target_fault constant (lexeme op.now) op_pos (view target.now) ≡ None) }
    ensures refused { IfErr result (λ e. is_for_memory e ≡ false
        → target_fault constant (lexeme op.now) op_pos (view target.now) ≡ Some (refusal_of e)) }
    ensures nowhere { IfErr result MemoryIsNowhere }
{
    match target {
        Expr::ThisPtr(_) => Ok(()),
        Expr::Variable(variable, pos) => test_variable(constant, variable, *pos),
        Expr::Dot(_, _, _) | Expr::Index(_, _, _) => test_chain(alloc, target),
        Expr::And(_, pos) => Err(list_refusal(alloc, op, op_pos, *pos)),
        Expr::Or(_, pos) => Err(list_refusal(alloc, op, op_pos, *pos)),
        Expr::Coalesce(_, pos) => Err(list_refusal(alloc, op, op_pos, *pos)),
        _ => Err(value_refusal(alloc, is_constant(target), target.position())),
    }
}

// The refusal of what may not be assigned to.
fn invalid(alloc: Global, pos: Position) -> ParseError
    ensures { Says (invalid pos) result }
{
    match RcStr::from_str(alloc, "") {
        Ok(name) => ParseError(ParseErrorType::AssignmentToInvalidLHS(name), pos),
        Err(error) => ParseError::from(error),
    }
}

// ---- variables

// Refuses a variable that is a constant.
fn test_variable(constant: bool, variable: &VariableExpr, pos: Position) -> ParseResult<()>
    ensures passes { OnOk result (variable_fault constant (named variable.now).name pos ≡ None) }
    ensures refused { IfErr result (λ e. is_for_memory e ≡ false
        → variable_fault constant (named variable.now).name pos ≡ Some (refusal_of e)) }
    ensures nowhere { IfErr result MemoryIsNowhere }
{
    if constant {
        let name = variable.name.clone()?;
        return Err(ParseError(ParseErrorType::AssignmentToConstant(name), pos));
    }
    Ok(())
}

// ---- chains

// Refuses a chain that has a method call after a dot, or begins with neither a variable nor `this`.
fn test_chain(alloc: Global, chain: &Expr) -> ParseResult<()>
    ensures passes { OnOk result (chain_fault (chain_of (view chain.now)) ≡ None) }
    ensures refused { IfErr result (λ e. is_for_memory e ≡ false
        → chain_fault (chain_of (view chain.now)) ≡ Some (refusal_of e)) }
    ensures nowhere { IfErr result MemoryIsNowhere }
{
    test_members(alloc, chain)?;
    test_root(alloc, root_of(chain))
}

// Refuses the first method call after a dot of a chain.
fn test_members(alloc: Global, chain: &Expr) -> ParseResult<()>
    ensures passes { OnOk result (links_fault (chain_of (view chain.now)).links ≡ None) }
    ensures refused { IfErr result (λ e. is_for_memory e ≡ false
        → links_fault (chain_of (view chain.now)).links ≡ Some (refusal_of e)) }
    ensures nowhere { IfErr result MemoryIsNowhere }
{
    let mut rest = chain;
    while let Some((kind, after)) = after_link(rest) {
        test_item(alloc, kind, root_of(after))?;
        rest = after;
    }
    Ok(())
}

// The kind of the first link of a chain, and its item with all later links. None if there is no link, and where the
// first link is a bracket that ends the chain.
fn after_link(chain: &Expr) -> Option<(LinkKind, &Expr)>
    ensures none { IfNone result (links_fault (chain_of (view chain.now)).links ≡ None) }
    ensures some { IfSome result (λ link. links_fault (chain_of (view chain.now)).links
        ≡ option_or (item_fault (link_kind_view link.0) (chain_of (view link.1.now)).root)
        (links_fault (chain_of (view link.1.now)).links)) }
    ensures fewer { IfSome result (λ link. length (chain_of (view chain.now)).links
        ≡ length (chain_of (view link.1.now)).links + 1) }
{
    match chain {
        Expr::Dot(sides, _, _) => Some((LinkKind::Dot, &sides.rhs)),
        Expr::Index(sides, flags, _) => {
            if flags.terminating {
                return None;
            }
            Some((LinkKind::Index, &sides.rhs))
        }
        _ => None,
    }
}

// The operand that a tree's chain begins with.
fn root_of(tree: &Expr) -> &Expr
    ensures { view result.now ≡ (chain_of (view tree.now)).root }
{
    match tree {
        Expr::Dot(sides, _, _) => &sides.lhs,
        Expr::Index(sides, _, _) => &sides.lhs,
        _ => tree,
    }
}

// Refuses a method call after a dot.
fn test_item(alloc: Global, kind: LinkKind, item: &Expr) -> ParseResult<()>
    ensures passes { OnOk result (item_fault (link_kind_view kind) (view item.now) ≡ None) }
    ensures refused { IfErr result (λ e. is_for_memory e ≡ false
        → item_fault (link_kind_view kind) (view item.now) ≡ Some (refusal_of e)) }
    ensures nowhere { IfErr result MemoryIsNowhere }
{
    match (kind, item) {
        (LinkKind::Dot, Expr::MethodCall(_, pos)) => Err(invalid(alloc, *pos)),
        (LinkKind::Index, _) | (LinkKind::Dot, _) => Ok(()),
    }
}

// Refuses a chain that begins with neither a variable nor `this`.
fn test_root(alloc: Global, root: &Expr) -> ParseResult<()>
    ensures passes { OnOk result (root_fault (view root.now) ≡ None) }
    ensures refused { IfErr result (λ e. is_for_memory e ≡ false
        → root_fault (view root.now) ≡ Some (refusal_of e)) }
    ensures nowhere { IfErr result MemoryIsNowhere }
{
    match root {
        Expr::Variable(_, _) | Expr::ThisPtr(_) => Ok(()),
        _ => Err(invalid(alloc, root.position())),
    }
}

// ---- what is refused in any case

// Whether a token is `=`.
fn is_equals(op: &Token) -> bool
    ensures { result ≡ is_equals (lexeme op.now) }
{
    matches!(op, Token::Equals)
}

// The refusal of a list of `&&`, `||` or `??`, which is at `list_pos`.
fn list_refusal(alloc: Global, op: &Token, op_pos: Position, list_pos: Position) -> ParseError
    ensures refused { is_for_memory result ≡ false
        → list_fault (lexeme op.now) op_pos list_pos ≡ Some (refusal_of result) }
    ensures nowhere { MemoryIsNowhere result }
{
    if !is_equals(op) {
        return invalid(alloc, list_pos);
    }
    match no_equals(alloc) {
        Ok(input) => ParseError(ParseErrorType::BadInput(input), op_pos),
        Err(error) => ParseError::from(error),
    }
}

// Why `=` is refused after such a list.
fn no_equals(alloc: Global) -> Result<InputError, AllocError>
    ensures { IfOk result (λ e. input_cause e ≡ ImproperSymbol (codes "=")) }
{
    let symbol = RcStr::from_str(alloc, "=")?;
    let note = RcStr::from_str(alloc, "a comparison is written with `==`")?;
    Ok(InputError::ImproperSymbol(symbol, note))
}

// The refusal of a value, which is constant or not.
fn value_refusal(alloc: Global, constant: bool, pos: Position) -> ParseError
    ensures refused { is_for_memory result ≡ false → value_fault constant pos ≡ Some (refusal_of result) }
    ensures nowhere { MemoryIsNowhere result }
{
    if !constant {
        return invalid(alloc, pos);
    }
    match RcStr::from_str(alloc, "") {
        Ok(name) => ParseError(ParseErrorType::AssignmentToConstant(name), pos),
        Err(error) => ParseError::from(error),
    }
}

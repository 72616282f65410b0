//! Calls that operators make.

ghost use Rattle.std.specs.Prelude.{◌≡◌, IfOk, length, option_map};
ghost use Rattle.rhai_lower.specs.Lexemes.{lexeme};
ghost use Rattle.rhai_lower.specs.Nodes.{call};
ghost use Rattle.rhai_lower.specs.View.{view, views};
ghost use Rattle.rhai_grammar.specs.Operators.{contains_call};
ghost use Rattle.rhai_trees.specs.Views.{native_called};

use rhai_lower::{Expr, FnCallExpr, Namespace, Position, StringsInterner, Token};
use std::alloc::{AllocError, Global};
use std::rc::RcStr;

/// The native-only call of an operator or sign, at position `pos`. Returns `AllocError` if memory runs out.
#[inline(always)]
#[tactic(auto, using(rhai_lower::proofs::Views::view_call))]
pub(crate) fn native_call(
    alloc: Global,
    interner: &mut StringsInterner,
    op_token: Token,
    pos: Position,
    args: Vec<Expr>,
) -> Result<Expr, AllocError>
    ensures { IfOk result (λ e. view e
        ≡ call (native_called (lexeme op_token) (length args.items)) (views args.items) pos) }
{
    let call = FnCallExpr {
        name: interner.text(alloc, &op_token)?,
        namespace: Namespace {
            path: Vec::new(alloc),
            index: None,
        },
        script_args: None,
        native_args: args.len(),
        args,
        capture_parent_scope: false,
        op_token: Some(op_token),
    };
    Ok(Expr::FnCall(Box::new(alloc, call)?, pos))
}

/// The call of `contains` for `lhs in rhs`; `op_token` is the token that it records. Returns `AllocError` if memory
/// runs out.
#[tactic(auto, using(rhai_lower::proofs::Views::view_call))]
pub(crate) fn contains_call(
    alloc: Global,
    op_token: Option<Token>,
    pos: Position,
    lhs: Expr,
    rhs: Expr,
) -> Result<Expr, AllocError>
    ensures { IfOk result (λ e. view e ≡ contains_call (option_map lexeme op_token) pos (view lhs) (view rhs)) }
{
    let call = FnCallExpr {
        name: RcStr::from_str(alloc, "contains")?,
        namespace: Namespace {
            path: Vec::new(alloc),
            index: None,
        },
        script_args: Some(2),
        native_args: 2,
        args: vec![in alloc; rhs, lhs]?,
        capture_parent_scope: false,
        op_token,
    };
    Ok(Expr::FnCall(Box::new(alloc, call)?, pos))
}

//! What a closure gives: its function, and its value.

ghost use Rattle.std.specs.Prelude.{◌≡◌, ◌++◌, ◌+◌, IfOk, None, OnOk, [], length, map};
ghost use Rattle.std.specs.Rc.{rc_str_bytes};
ghost use Rattle.rhai_lower.specs.Nodes.{block_value, braces, one_node, pointer};
ghost use Rattle.rhai_lower.specs.Positions.{nowhere};
ghost use Rattle.rhai_lower.specs.View.{block_view, called, shared_of, statement_views, view, views};
ghost use Rattle.rhai_lower.specs.declared.expr.FnCallExpr.{out-FnCallExpr};
ghost use Rattle.rhai_grammar.specs.Closures.{all_names, captured_nodes, closure_name, closure_value, curry};
ghost use Rattle.rhai_grammar.specs.Closures.{ended_closure};
ghost use Rattle.rhai_grammar.specs.Closures.{shared_names};
ghost use Rattle.rhai_base.specs.Libraries.{ended};
ghost use Rattle.rhai_base.specs.Uses.{captured_node, use_of, uses_of};

use crate::frame::Frame;
use rhai_grammar::FnKey;
use rhai_lower::{
    Expr, FnCallExpr, Ident, Namespace, Position, ScriptFuncDef, Stmt, StmtBlock, VariableExpr,
};
use std::alloc::{AllocError, Global};
use std::num::NonZeroUsize;
use std::rc::{Rc, RcStr};

// The names that a closure captures, with the numbers of their slots around it.
fn shared_names(
    alloc: Global,
    frame: &Frame<'_>,
    captured: &[(RcStr, Position)],
) -> Result<Vec<(Ident, Option<NonZeroUsize>)>, AllocError>
    ensures { IfOk result (λ names. shared_of names.items
        ≡ shared_names frame.now.live.slots (uses_of captured.now)) }
{
    let mut names = Vec::new(alloc);
    for used in captured {
        let index = frame.slot_number(&used.0);
        let name = Ident {
            name: used.0.clone()?,
            pos: used.1,
        };
        names.push((name, index))?;
    }
    Ok(names)
}

// A name that a closure captures, as an operand around it.
#[tactic(auto, using(rhai_lower::proofs::Views::view_variable))]
fn captured_node(
    alloc: Global,
    frame: &Frame<'_>,
    used: &(RcStr, Position),
) -> Result<Expr, AllocError>
    ensures { IfOk result (λ e. view e ≡ captured_node frame.now.live.slots (use_of used.now)) }
{
    let variable = VariableExpr {
        index: frame.slot_number(&used.0),
        name: used.0.clone()?,
        namespace: Namespace {
            path: Vec::new(alloc),
            index: None,
        },
    };
    Ok(Expr::Variable(Box::new(alloc, variable)?, used.1))
}

// What `curry` has: the pointer, and the names that the closure captures.
#[tactic(auto, using(crate::proofs::UseLemmas::captured_all))]
fn curried(
    alloc: Global,
    frame: &Frame<'_>,
    pointer: Expr,
    captured: &[(RcStr, Position)],
) -> Result<Vec<Expr>, AllocError>
    ensures nodes { IfOk result (λ args. views args.items
        ≡ one_node (view pointer) (captured_nodes frame.now.live.slots (uses_of captured.now))) }
    ensures count { IfOk result (λ args. length args.items ≡ length (uses_of captured.now) + 1) }
{
    let mut args = Vec::new(alloc);
    args.push(pointer)?;
    for used in captured {
        args.push(captured_node(alloc, frame, used)?)?;
    }
    Ok(args)
}

// The call of the native `curry`.
fn curry_call(alloc: Global, args: Vec<Expr>) -> Result<FnCallExpr, AllocError>
    ensures called { IfOk result (λ c. (count : _) → length args.items ≡ count + 1 → called c ≡ curry count) }
    ensures args { IfOk result (λ c. (out-FnCallExpr c).args.items ≡ args.items) }
{
    Ok(FnCallExpr {
        name: RcStr::from_str(alloc, "curry")?,
        namespace: Namespace {
            path: Vec::new(alloc),
            index: None,
        },
        script_args: None,
        native_args: args.len(),
        args,
        capture_parent_scope: false,
        op_token: None,
    })
}

// A block of these statements at `pos`, as an operand.
#[tactic(auto, using(rhai_lower::proofs::Views::view_block_value, rhai_lower::proofs::Views::view_block))]
fn block_at(statements: Vec<Stmt>, pos: Position) -> Expr
    ensures { view result ≡ block_value (braces (statement_views statements.items) pos nowhere) }
{
    Expr::Stmt(StmtBlock {
        statements,
        start: pos,
        end: Position::NONE,
    })
}

/// The value that stands for a closure at `pos`, whose function has this name and so many parameters. The error is that
/// there is no memory for it.
#[tactic(auto, using(crate::proofs::UseLemmas::closure_values))]
pub fn closure_value(
    alloc: Global,
    frame: &Frame<'_>,
    name: RcStr,
    params: usize,
    captured: &[(RcStr, Position)],
    pos: Position,
) -> Result<Expr, AllocError>
    ensures { IfOk result (λ e. view e ≡ closure_value pos (pointer (rc_str_bytes name) params pos)
        (uses_of captured.now) frame.now.live) }
{
    let pointer = Expr::FnPointer(name, params, pos);
    if captured.is_empty() {
        return Ok(pointer);
    }
    let shared = shared_names(alloc, frame, captured)?;
    let args = curried(alloc, frame, pointer, captured)?;
    let curry = curry_call(alloc, args)?;
    let call = Expr::FnCall(Box::new(alloc, curry)?, pos);
    let mut statements = Vec::new(alloc);
    statements.push(Stmt::Share(shared, pos))?;
    statements.push(Stmt::Expr(call))?;
    Ok(block_at(statements, pos))
}

// The names of all parameters of a closure: those that it captures, and then its own.
fn all_names(
    alloc: Global,
    captured: &[(RcStr, Position)],
    declared: &[RcStr],
) -> Result<Vec<RcStr>, AllocError>
    ensures { IfOk result (λ all. map rc_str_bytes all.items
        ≡ all_names (uses_of captured.now) (map rc_str_bytes declared.now)) }
{
    let mut all = Vec::new(alloc);
    for used in captured {
        all.push(used.0.clone()?)?;
    }
    push_names(&mut all, declared)?;
    Ok(all)
}

// Adds names to others. The error is that there is no memory for them.
fn push_names(all: &mut Vec<RcStr>, names: &[RcStr]) -> Result<(), AllocError>
    ensures { OnOk result (map rc_str_bytes all.new.items
        ≡ map rc_str_bytes all.old.items ++ map rc_str_bytes names.now) }
{
    for name in names {
        all.push(name.clone()?)?;
    }
    Ok(())
}

/// The function of a closure with this name, and its key. The error is that there is no memory for it.
pub fn closure_function(
    alloc: Global,
    name: RcStr,
    captured: &[(RcStr, Position)],
    declared: &[RcStr],
    body: StmtBlock,
) -> Result<(FnKey, Rc<ScriptFuncDef>), AllocError>
    ensures { IfOk result (λ e. (number : _) → rc_str_bytes name ≡ closure_name number → ended e.0 e.1
        ≡ ended_closure number (uses_of captured.now) (map rc_str_bytes declared.now) (block_view body)) }
{
    let params = all_names(alloc, captured, declared)?;
    let key = FnKey {
        this_type: None,
        name: name.clone()?,
        params: params.len(),
    };
    let function = ScriptFuncDef {
        this_type: None,
        name,
        private: false,
        params,
        body,
        comments: Vec::new(alloc),
    };
    Ok((key, Rc::new(alloc, function)?))
}

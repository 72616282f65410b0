//! The nodes of `if`, loops and `try`, and which statements end by themselves.

ghost use Rattle.std.specs.Prelude.{◌≡◌, IfErr, IfOk, None, OnOk, Some, false, option_map, true};
ghost use Rattle.std.specs.Rc.{rc_str_bytes};
ghost use Rattle.rhai_lower.specs.Nodes.{do_statement, for_statement, if_statement, start_of, try_catch};
ghost use Rattle.rhai_lower.specs.Nodes.{while_statement};
ghost use Rattle.rhai_lower.specs.View.{block_view, statement_view, view};
ghost use Rattle.rhai_grammar.specs.Causes.{MemoryIsNowhere, MismatchedType, Says, cause_of, is_for_memory, refusal};
ghost use Rattle.rhai_grammar.specs.Causes.{refusal_of};
ghost use Rattle.rhai_grammar.specs.Constructs.{guard_fault, iterated_fault};
ghost use Rattle.rhai_grammar.specs.Statements.{ends_itself};
ghost use Rattle.rhai_grammar.specs.Trees.{catch_node};

use rhai_lower::{
    Expr, FlowControl, ForLoop, LoopControl, Namespace, Position, Stmt, StmtBlock, VariableExpr,
};
use std::alloc::{AllocError, Global};
use std::rc::RcStr;

/// An `if` at `pos`. `branch` is the block of its `else`: that of an absent `else` is `no_block`, and that of an `else`
/// before another `if` is a block of that statement. Returns `AllocError` if memory runs out.
#[tactic(auto, using(rhai_lower::proofs::Views::view_if))]
pub fn make_if(
    alloc: Global,
    guard: Expr,
    body: StmtBlock,
    branch: StmtBlock,
    pos: Position,
) -> Result<Stmt, AllocError>
    ensures { IfOk result (λ s. statement_view s
        ≡ if_statement (view guard) (block_view body) (block_view branch) pos) }
{
    let parts = FlowControl {
        expr: guard,
        body,
        branch,
    };
    Ok(Stmt::If(Box::new(alloc, parts)?, pos))
}

/// A `while` at `pos`, or a `loop`, whose guard is unit without position. Returns `AllocError` if memory runs out.
#[tactic(auto, using(rhai_lower::proofs::Views::view_while))]
pub fn make_while(
    alloc: Global,
    guard: Expr,
    body: StmtBlock,
    pos: Position,
) -> Result<Stmt, AllocError>
    ensures { IfOk result (λ s. statement_view s ≡ while_statement (view guard) (block_view body) pos) }
{
    let parts = LoopControl { expr: guard, body };
    Ok(Stmt::While(Box::new(alloc, parts)?, pos))
}

/// A `do` at `pos`; `negated` is whether it ends with `until`. Returns `AllocError` if memory runs out.
#[tactic(auto, using(rhai_lower::proofs::Views::view_do))]
pub fn make_do(
    alloc: Global,
    guard: Expr,
    body: StmtBlock,
    negated: bool,
    pos: Position,
) -> Result<Stmt, AllocError>
    ensures { IfOk result (λ s. statement_view s ≡ do_statement (view guard) (block_view body) negated pos) }
{
    let parts = LoopControl { expr: guard, body };
    Ok(Stmt::Do {
        control: Box::new(alloc, parts)?,
        negated,
        pos,
    })
}

/// A `for` at `pos`, with its variable, the variable that counts the rounds, if there is one, and what it goes over.
/// Returns `AllocError` if memory runs out.
#[tactic(auto, using(rhai_lower::proofs::Views::view_for))]
pub fn make_for(
    alloc: Global,
    name: RcStr,
    counter: Option<RcStr>,
    over: Expr,
    body: StmtBlock,
    pos: Position,
) -> Result<Stmt, AllocError>
    ensures { IfOk result (λ s. statement_view s ≡ for_statement
        (rc_str_bytes name) (option_map rc_str_bytes counter) (view over) (block_view body) pos) }
{
    let parts = ForLoop {
        name,
        counter,
        expr: over,
        body,
    };
    Ok(Stmt::For(Box::new(alloc, parts)?, pos))
}

// The variable of `catch` with its position, or unit without position if there is none.
#[tactic(auto, using(crate::proofs::StatementLemmas::caught))]
fn catch_node(alloc: Global, name: Option<(RcStr, Position)>) -> Result<Expr, AllocError>
    ensures { IfOk result (λ e. view e ≡ catch_node (option_map (λ n. (rc_str_bytes n.0, n.1)) name)) }
{
    let Some((name, pos)) = name else {
        return Ok(Expr::Unit(Position::NONE));
    };
    let variable = VariableExpr {
        index: None,
        name,
        namespace: Namespace {
            path: Vec::new(alloc),
            index: None,
        },
    };
    Ok(Expr::Variable(Box::new(alloc, variable)?, pos))
}

/// A `try` at `pos`. `name` is the variable of its `catch` with its position, if there is one, and `handler` the block
/// of the `catch`. Returns `AllocError` if memory runs out.
#[tactic(auto, using(rhai_lower::proofs::Views::view_try))]
pub fn make_try(
    alloc: Global,
    body: StmtBlock,
    name: Option<(RcStr, Position)>,
    handler: StmtBlock,
    pos: Position,
) -> Result<Stmt, AllocError>
    ensures { IfOk result (λ s. statement_view s ≡ try_catch (block_view body)
        (catch_node (option_map (λ n. (rc_str_bytes n.0, n.1)) name)) (block_view handler) pos) }
{
    let parts = FlowControl {
        expr: catch_node(alloc, name)?,
        body,
        branch: handler,
    };
    Ok(Stmt::TryCatch(Box::new(alloc, parts)?, pos))
}

/// Whether a statement ends by itself, so that no `;` has to follow it: an empty one, or a construct other than `do`,
/// which ends with its guard. Does not allocate.
pub fn ends_itself(statement: &Stmt) -> bool
    ensures { result ≡ ends_itself (statement_view statement.now) }
{
    match statement {
        Stmt::Noop(_)
        | Stmt::If(_, _)
        | Stmt::Switch { .. }
        | Stmt::While(_, _)
        | Stmt::For(_, _)
        | Stmt::Block(_)
        | Stmt::TryCatch(_, _) => true,
        _ => false,
    }
}

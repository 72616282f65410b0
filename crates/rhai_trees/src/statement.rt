//! Statements: lists and nodes. The nodes are those of definitions, imports, exports, assignments, blocks and jumps.
//! Statements as operands are here too.

ghost use Rattle.std.specs.Prelude.{◌≡◌, [], IfOk, OnOk, false, option_map, true, unwrap_or};
ghost use Rattle.std.specs.Int.NonZero.{non_zero_usize_get};
ghost use Rattle.std.specs.Rc.{rc_str_bytes};
ghost use Rattle.rhai_lower.specs.Lexemes.{lexeme};
ghost use Rattle.rhai_lower.specs.Nodes.{absent, assignment, block_statement, block_value, braces, break_loop};
ghost use Rattle.rhai_lower.specs.Nodes.{export_statement, expression, made_block, return_statement, var_statement};
ghost use Rattle.rhai_lower.specs.View.{block_view, statement_view, statement_views, view};
ghost use Rattle.rhai_grammar.specs.Targets.{update_of};
ghost use Rattle.rhai_grammar.specs.Trees.{import_tree, with_kept};
ghost use Rattle.rhai_grammar.specs.Trees as tree;
ghost use Rattle.rhai_trees.specs.Statements.{boxed_view, is_empty, optional_view};

use rhai_lower::{BinaryExpr, Expr, Position, Stmt, StmtBlock, Token};
use std::alloc::{AllocError, Global};
use std::num::NonZeroUsize;
use std::rc::RcStr;

/// Whether a statement is empty.
pub fn is_empty(statement: &Stmt) -> bool
    ensures { result ≡ is_empty (statement_view statement.now) }
{
    match statement {
        Stmt::Noop(_) => true,
        _ => false,
    }
}

/// Adds a statement to a list, unless it is empty. Returns `AllocError` if memory runs out.
#[tactic(auto, using(crate::proofs::StatementLemmas::kept))]
pub fn push_statement(list: &mut Vec<Stmt>, statement: Stmt) -> Result<(), AllocError>
    ensures { OnOk result (statement_views list.new.items
        ≡ with_kept (statement_views list.old.items) (statement_view statement)) }
{
    if is_empty(&statement) {
        return Ok(());
    }
    list.push(statement)?;
    Ok(())
}

// The token of an assignment in the tree, where `=` is left out.
fn update_of(op: Token) -> Option<Token>
    ensures { option_map lexeme result ≡ update_of (lexeme op) }
{
    match op {
        Token::Equals => None,
        other => Some(other),
    }
}

/// An assignment, whose token is `op`, at `pos`. Returns `AllocError` if memory runs out.
pub fn make_assignment(
    alloc: Global,
    op: Token,
    pos: Position,
    target: Expr,
    value: Expr,
) -> Result<Stmt, AllocError>
    ensures { IfOk result (λ s. statement_view s
        ≡ assignment (update_of (lexeme op)) (view target) (view value) pos) }
{
    let sides = BinaryExpr {
        lhs: target,
        rhs: value,
    };
    Ok(Stmt::Assignment {
        op: update_of(op),
        operands: Box::new(alloc, sides)?,
        pos,
    })
}

/// An expression as a statement. Does not allocate.
pub fn make_expression(expr: Expr) -> Stmt
    ensures { statement_view result ≡ expression (view expr) }
{
    Stmt::Expr(expr)
}

/// The definition of a variable or a constant, which may be exported; `number` is that of the slot that it uses again.
/// Returns `AllocError` if memory runs out.
pub fn make_definition(
    alloc: Global,
    name: RcStr,
    value: Expr,
    number: Option<NonZeroUsize>,
    constant: bool,
    exported: bool,
    pos: Position,
) -> Result<Stmt, AllocError>
    ensures { IfOk result (λ s. statement_view s ≡ var_statement
        (rc_str_bytes name) (view value) (option_map non_zero_usize_get number) constant exported pos) }
{
    Ok(Stmt::Var {
        name,
        value: Box::new(alloc, value)?,
        index: number,
        constant,
        exported,
        pos,
    })
}

/// A name that may be absent: without one the empty text. Returns `AllocError` if memory runs out.
pub fn name_or_empty(alloc: Global, name: Option<RcStr>) -> Result<RcStr, AllocError>
    ensures { IfOk result (λ t. rc_str_bytes t ≡ unwrap_or (option_map rc_str_bytes name) []) }
{
    match name {
        Some(name) => Ok(name),
        None => RcStr::from_str(alloc, ""),
    }
}

/// An `import` at `pos` of what `source` gives, under a name, if it has one. Returns `AllocError` if memory runs out.
pub fn make_import(
    alloc: Global,
    source: Expr,
    name: Option<RcStr>,
    pos: Position,
) -> Result<Stmt, AllocError>
    ensures { IfOk result (λ s. statement_view s
        ≡ import_tree (view source) (option_map rc_str_bytes name) pos) }
{
    let name = name_or_empty(alloc, name)?;
    Ok(Stmt::Import {
        path: Box::new(alloc, source)?,
        name,
        pos,
    })
}

/// An `export` at `pos` of the variable `name`, under the name `alias`, which is empty if none is written. Does not
/// allocate.
pub fn make_export(name: RcStr, alias: RcStr, pos: Position) -> Stmt
    ensures { statement_view result ≡ export_statement (rc_str_bytes name) (rc_str_bytes alias) pos }
{
    Stmt::Export { name, alias, pos }
}

/// Statements in braces, which are at these positions. Does not allocate.
pub fn make_block(statements: Vec<Stmt>, start: Position, end: Position) -> StmtBlock
    ensures { block_view result ≡ braces (statement_views statements.items) start end }
{
    StmtBlock {
        statements,
        start,
        end,
    }
}

/// A block as a statement. Does not allocate.
pub fn make_block_statement(block: StmtBlock) -> Stmt
    ensures { statement_view result ≡ block_statement (block_view block) }
{
    Stmt::Block(block)
}

/// A block as an operand. Does not allocate.
#[tactic(auto, using(rhai_lower::proofs::Views::view_block_value))]
pub fn make_block_value(block: StmtBlock) -> Expr
    ensures { view result ≡ block_value (block_view block) }
{
    Expr::Stmt(block)
}

/// A block without statements and without position, which stands for an absent `else`. Does not allocate.
pub fn no_block(alloc: Global) -> StmtBlock
    ensures { block_view result ≡ tree.no_block }
{
    make_block(Vec::new(alloc), Position::NONE, Position::NONE)
}

// The value of a jump, if it has one, in a box.
fn boxed(alloc: Global, value: Option<Expr>) -> Result<Option<Box<Expr>>, AllocError>
    ensures { IfOk result (λ v. boxed_view v ≡ optional_view value) }
{
    match value {
        Some(value) => Ok(Some(Box::new(alloc, value)?)),
        None => Ok(None),
    }
}

/// A `return`, or with `throws` a `throw`, which is at `pos`, with its value, if it has one. Returns `AllocError` if
/// memory runs out.
#[tactic(auto, using(crate::proofs::StatementLemmas::jumps))]
pub fn make_jump(
    alloc: Global,
    value: Option<Expr>,
    throws: bool,
    pos: Position,
) -> Result<Stmt, AllocError>
    ensures { IfOk result (λ s. statement_view s ≡ return_statement (optional_view value) throws pos) }
{
    let value = boxed(alloc, value)?;
    Ok(Stmt::Return { value, throws, pos })
}

/// A `break` at `pos` with its value, if it has one. Returns `AllocError` if memory runs out.
#[tactic(auto, using(crate::proofs::StatementLemmas::jumps))]
pub fn make_break(alloc: Global, value: Option<Expr>, pos: Position) -> Result<Stmt, AllocError>
    ensures { IfOk result (λ s. statement_view s ≡ break_loop (optional_view value) true pos) }
{
    Ok(Stmt::BreakLoop {
        value: boxed(alloc, value)?,
        breaks: true,
        pos,
    })
}

/// A `continue` at `pos`. Does not allocate.
#[tactic(auto, using(rhai_lower::proofs::Views::view_break_alone))]
pub fn make_continue(pos: Position) -> Stmt
    ensures { statement_view result ≡ break_loop absent false pos }
{
    Stmt::BreakLoop {
        value: None,
        breaks: false,
        pos,
    }
}

/// A statement as an operand: a block as it is, and any other statement as a block of this one statement, which starts
/// at it and has no end. Returns `AllocError` if memory runs out.
pub fn make_statement_value(alloc: Global, statement: Stmt) -> Result<Expr, AllocError>
    ensures { IfOk result (λ e. view e ≡ block_value (made_block (statement_view statement))) }
{
    Ok(make_block_value(StmtBlock::from_stmt(alloc, statement)?))
}

//! `Expr`: the expressions of the tree, with the names and calls in them.

ghost use Rattle.std.specs.Prelude.{◌≡◌};
ghost use Rattle.rhai_lower.specs.Nodes.{first_start, position_of, start_of};
ghost use Rattle.rhai_lower.specs.View.{view, views};
ghost use Rattle.rhai_lower.specs.declared.expr.BinaryExpr.{out-BinaryExpr};
ghost use Rattle.rhai_lower.specs.declared.expr.FnCallExpr.{out-FnCallExpr};

use crate::node::LinkFlags;
use crate::parts::FnCallParts;
use crate::position::Position;
use crate::stmt::StmtBlock;
use crate::token::Token;
use std::num::NonZeroUsize;
use std::rc::RcStr;

/// A name and its position.
#[derive(PartialEq, Debug, Drop)]
pub struct Ident {
    pub name: RcStr,
    pub pos: Position,
}

/// The path before a qualified name, such as `a::b` before `a::b::f`; empty for a plain name.
#[derive(PartialEq, Debug, Drop)]
pub struct Namespace {
    /// The names of the path, from the root.
    pub path: Vec<Ident>,
    /// The number of the root's import, counted from 1 at the latest import, if the root is an import.
    pub index: Option<NonZeroUsize>,
}

/// A use of a variable.
#[derive(PartialEq, Debug, Drop)]
pub struct VariableExpr {
    /// The number of its slot, counted from 1 at the latest slot; `None` if its slot is not known.
    pub index: Option<NonZeroUsize>,
    pub name: RcStr,
    /// The path before the name.
    pub namespace: Namespace,
}

/// A call of a function or of an operator.
#[cycle(ast)]
#[derive(PartialEq, Debug)]
pub struct FnCallExpr {
    /// The function's name, or the operator's symbol.
    pub name: RcStr,
    /// The path before the name.
    pub namespace: Namespace,
    /// The number of arguments of a script function that may be called; `None` if only a native function can be.
    pub script_args: Option<usize>,
    /// The number of arguments of a native function that may be called; for a method this includes the object.
    pub native_args: usize,
    /// The arguments, in written order.
    pub args: Vec<Expr>,
    /// Whether the call has a `!`, so that it sees the caller's scope.
    pub capture_parent_scope: bool,
    /// The operator's token, if an operator was written.
    pub op_token: Option<Token>,
}

/// Two expressions that belong together.
#[cycle(ast)]
#[derive(PartialEq, Debug)]
pub struct BinaryExpr {
    pub lhs: Expr,
    pub rhs: Expr,
}

/// An expression. Each variant has a position; a block has that of its start.
#[cycle(ast)]
#[derive(PartialEq, Debug, Drop)]
pub enum Expr {
    /// `()`
    Unit(Position),
    /// `true` or `false`
    BoolConstant(bool, Position),
    /// An integer.
    IntegerConstant(i64, Position),
    /// A character.
    CharConstant(char, Position),
    /// A string without interpolation.
    StringConstant(RcStr, Position),
    /// A string with interpolation: its texts and blocks, in written order.
    InterpolatedString(Vec<Expr>, Position),
    /// An array of these items.
    Array(Vec<Expr>, Position),
    /// An object map of these properties, in written order.
    Map(Vec<(Ident, Expr)>, Position),
    /// A pointer to a closure: the closure's name, and the number of its parameters.
    FnPointer(RcStr, usize, Position),
    /// A variable, at the position of its name (after the path).
    Variable(Box<VariableExpr>, Position),
    /// `this`
    ThisPtr(Position),
    /// A property's name, after a dot.
    Property(RcStr, Position),
    /// A call, at the position of its name or operator.
    FnCall(Box<FnCallExpr>, Position),
    /// A method call after a dot, at the position of its name.
    MethodCall(Box<FnCallExpr>, Position),
    /// `.` or `?.`, at the position of the dot. The left expression is what is before the dot, the right one the member
    /// with all later links.
    Dot(Box<BinaryExpr>, LinkFlags, Position),
    /// `[..]` or `?[..]`, at the position of the bracket. The left expression is what is before the bracket, the right
    /// one the index with all later links.
    Index(Box<BinaryExpr>, LinkFlags, Position),
    /// The operands of `&&`.
    And(Vec<Expr>, Position),
    /// The operands of `||`.
    Or(Vec<Expr>, Position),
    /// The operands of `??`.
    Coalesce(Vec<Expr>, Position),
    /// A block as a value, at the position where the block starts.
    Stmt(StmtBlock),
}

impl Default for Expr {
    ghost use Rattle.rhai_lower.specs.Positions.{nowhere};
    ghost use Rattle.rhai_lower.specs.declared.expr.Expr.TheVariants.{Unit};

    ghost is_default = { λ e. e ≡ Unit nowhere };

    fn default() -> Self {
        Expr::Unit(Position::NONE)
    }
}

impl Drop for FnCallExpr {
    // A run of operators nests in the first operands, as deep as it is long; a run of `**` in the last ones. A loop
    // goes down these; the derived drop would overflow the stack.
    #[cycle(drop)]
    fn drop(mut self) {
        loop {
            let FnCallExpr {
                mut args,
                op_token,
                name: _,
                namespace: _,
                script_args: _,
                native_args: _,
                capture_parent_scope: _,
            } = self;
            let deepest = match op_token {
                Some(Token::PowerOf) => args.pop(),
                _ if args.is_empty() => None,
                _ => Some(args.remove(0)),
            };
            match deepest {
                Some(Expr::FnCall(next, _)) => self = Box::into_inner(next),
                _ => return,
            }
        }
    }
}

impl FnCallExpr {
    /// The parts of the call. Does not allocate.
    pub fn into_parts(self) -> FnCallParts
        ensures { let c = out-FnCallExpr self in result ≡ record {
          name = c.name;
          namespace = c.namespace;
          script_args = c.script_args;
          native_args = c.native_args;
          args = c.args;
          capture_parent_scope = c.capture_parent_scope;
          op_token = c.op_token;
        } }
    {
        let FnCallExpr {
            name,
            namespace,
            script_args,
            native_args,
            args,
            capture_parent_scope,
            op_token,
        } = self;
        FnCallParts {
            name,
            namespace,
            script_args,
            native_args,
            args,
            capture_parent_scope,
            op_token,
        }
    }
}

impl BinaryExpr {
    /// The two expressions, the left one first. Does not allocate.
    pub fn into_parts(self) -> (Expr, Expr)
        ensures left { result.0 ≡ (out-BinaryExpr self).lhs }
        ensures right { result.1 ≡ (out-BinaryExpr self).rhs }
    {
        let BinaryExpr { lhs, rhs } = self;
        (lhs, rhs)
    }
}

impl Drop for BinaryExpr {
    // A chain nests to the right, as deep as it has links. A loop goes down the links; the derived drop would overflow
    // the stack.
    #[cycle(drop)]
    fn drop(mut self) {
        loop {
            let BinaryExpr { lhs: _, rhs } = self;
            match rhs {
                Expr::Dot(rest, _, _) => self = Box::into_inner(rest),
                Expr::Index(rest, _, _) => self = Box::into_inner(rest),
                _ => return,
            }
        }
    }
}

impl Expr {
    /// The position of the node: for a call that of its name or operator, for a chain that of its dot or bracket, for a
    /// block its start. Does not allocate.
    pub fn position(&self) -> Position
        ensures { result ≡ position_of (view self.now) }
    {
        match self {
            Expr::Unit(pos) => *pos,
            Expr::BoolConstant(_, pos) => *pos,
            Expr::IntegerConstant(_, pos) => *pos,
            Expr::CharConstant(_, pos) => *pos,
            Expr::StringConstant(_, pos) => *pos,
            Expr::InterpolatedString(_, pos) => *pos,
            Expr::Array(_, pos) => *pos,
            Expr::Map(_, pos) => *pos,
            Expr::FnPointer(_, _, pos) => *pos,
            Expr::Variable(_, pos) => *pos,
            Expr::ThisPtr(pos) => *pos,
            Expr::Property(_, pos) => *pos,
            Expr::FnCall(_, pos) => *pos,
            Expr::MethodCall(_, pos) => *pos,
            Expr::Dot(_, _, pos) => *pos,
            Expr::Index(_, _, pos) => *pos,
            Expr::And(_, pos) => *pos,
            Expr::Or(_, pos) => *pos,
            Expr::Coalesce(_, pos) => *pos,
            Expr::Stmt(block) => block.start,
        }
    }

    /// The start of the node: a chain starts where its left expression starts, a list of `&&`, `||` or `??` where its
    /// first operand starts, any other node at its position. Does not allocate.
    #[cycle(start)]
    pub fn start_position(&self) -> Position
        ensures { result ≡ start_of (view self.now) }
    {
        match self {
            Expr::Dot(chain, _, _) => chain.lhs.start_position(),
            Expr::Index(chain, _, _) => chain.lhs.start_position(),
            Expr::And(operands, pos) => first_start(operands, *pos),
            Expr::Or(operands, pos) => first_start(operands, *pos),
            Expr::Coalesce(operands, pos) => first_start(operands, *pos),
            Expr::Unit(pos) => *pos,
            Expr::BoolConstant(_, pos) => *pos,
            Expr::IntegerConstant(_, pos) => *pos,
            Expr::CharConstant(_, pos) => *pos,
            Expr::StringConstant(_, pos) => *pos,
            Expr::InterpolatedString(_, pos) => *pos,
            Expr::Array(_, pos) => *pos,
            Expr::Map(_, pos) => *pos,
            Expr::FnPointer(_, _, pos) => *pos,
            Expr::Variable(_, pos) => *pos,
            Expr::ThisPtr(pos) => *pos,
            Expr::Property(_, pos) => *pos,
            Expr::FnCall(_, pos) => *pos,
            Expr::MethodCall(_, pos) => *pos,
            Expr::Stmt(block) => block.start,
        }
    }
}

// The start of the first operand; `pos` if there is none.
#[cycle(start)]
fn first_start(operands: &[Expr], pos: Position) -> Position
    ensures { result ≡ first_start (views operands.now) pos }
{
    match operands {
        [first, ..] => first.start_position(),
        [] => pos,
    }
}

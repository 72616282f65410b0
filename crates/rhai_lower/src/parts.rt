//! The parts of calls and functions. A node with a `drop` of its own cannot be taken apart by a pattern outside its
//! module; `into_parts` (`expr`, `ast`) gives its parts.

use crate::expr::{Expr, Namespace};
use crate::stmt::StmtBlock;
use crate::token::Token;
use std::rc::RcStr;

/// The parts of a call. They are those of `FnCallExpr`, but have no `drop` of their own, so that a pattern can take
/// them.
#[derive(PartialEq, Debug, Drop)]
pub struct FnCallParts {
    pub name: RcStr,
    pub namespace: Namespace,
    pub script_args: Option<usize>,
    pub native_args: usize,
    pub args: Vec<Expr>,
    pub capture_parent_scope: bool,
    pub op_token: Option<Token>,
}

/// The parts of a function. They are those of `ScriptFuncDef`, but have no `drop` of their own, so that a pattern can
/// take them.
#[derive(PartialEq, Debug, Drop)]
pub struct ScriptFuncParts {
    pub this_type: Option<RcStr>,
    pub name: RcStr,
    pub private: bool,
    pub params: Vec<RcStr>,
    pub body: StmtBlock,
    pub comments: Vec<RcStr>,
}

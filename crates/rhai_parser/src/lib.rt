//! The parser: from a stream of tokens to the tree of a script.
#![tactic(auto)]

/// Takes a state with these fields apart, and puts it together. As a parameter it cannot be proved to be passed on.
macro_rules! rebuild {
    ($state:ident: $($field:ident),*) => {
        let ParseState { $($field),* } = $state;
        let $state = ParseState { $($field),* };
    };
}

pub mod engine;
mod expression;
pub mod laws;
mod lending;
mod library;
mod script;

pub use engine::Engine;
pub use rhai_base::{
    FnLib, LangOptions, ParseCounts, ParseSettingFlags, ParseSettings, ParseState,
    TokenizerControl, make_anonymous_fn, nest_peak,
};
pub use rhai_grammar::{ExprFilter, FnKey, InputError, ParseError, ParseErrorType, ParseResult};
pub use rhai_lower::optimizer::{OptimizationLevel, Optimizer, Unoptimized};
pub use rhai_lower::{
    AST, BinaryExpr, Entry, Expr, FlowControl, FnCallExpr, FnCallParts, ForLoop, Ident, LexError,
    LinkFlags, LoopControl, Namespace, Node, Position, RangeCase, Scope, ScriptFuncDef,
    ScriptFuncParts, Stmt, StmtBlock, StmtBlockContainer, SwitchCase, SwitchCasesCollection, Token,
    TokenStream, VariableExpr, Walk, optimizer,
};

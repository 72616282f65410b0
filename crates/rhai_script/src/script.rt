//! `compile` and its kin: they read the text of a script, or of one expression.

ghost use Rattle.std.specs.Prelude.{IfErr, IfOk, None};
ghost use Rattle.rhai_grammar.specs.Causes.{MemoryIsNowhere};
ghost use Rattle.rhai_lower.specs.Optimizer.{unoptimized};
ghost use Rattle.rhai_lower.specs.declared.optimizer.OptimizationLevel.TheVariants as level;
ghost use Rattle.rhai_script.specs.Deliveries.{IsStreamOf};
ghost use Rattle.rhai_script.specs.Scripts.{ReadsTextAsAst, ReadsTextAsExpression};

use rhai_parser::{
    AST, Engine, FnLib, OptimizationLevel, Optimizer, ParseResult, ParseState, Scope, TokenStream,
    TokenizerControl, Unoptimized,
};
use rhai_tokenizer::limits::Limits;
use rhai_tokenizer::tokenizer::tokenize;
use rhai_tokenizer::tokens::Tokens;
use std::alloc::{AllocError, Global};

// The stream of the tokens of a text.
fn stream_of(alloc: Global, text: &str, limits: Limits) -> Result<TokenStream, AllocError>
    ensures { IfOk result (IsStreamOf limits text.now) }
{
    let Tokens { entries, end, .. } = tokenize(alloc, text, limits)?;
    Ok(TokenStream::new(entries, end))
}

/// Reads the text of a script, under the engine's settings for one, as an [`AST`] that is not optimized. `limits` says
/// whether doc comments join their functions, and how long strings may be.
///
/// An error tells why and where the text is no script; all are in docs/GRAMMAR.md, "Errors". `OutOfMemory` comes where
/// memory ran out, and stands at no position.
pub fn compile(alloc: Global, engine: &Engine, text: &str, limits: Limits) -> ParseResult<AST>
    ensures reads { ReadsTextAsAst unoptimized engine.now None level.None limits text.now result }
    ensures nowhere { IfErr result MemoryIsNowhere }
{
    let level = OptimizationLevel::None;
    compile_with(alloc, engine, text, limits, None, level, &Unoptimized)
}

/// Reads the text of a script as [`compile`] does, with these variables from outside, and hands its statements, with
/// all its functions and closures, to an optimizer. `level` is how much that may do. Where it runs out of memory, the
/// error is `OutOfMemory` at no position.
pub fn compile_with<O: Optimizer>(
    alloc: Global,
    engine: &Engine,
    text: &str,
    limits: Limits,
    constants: Option<&Scope>,
    level: OptimizationLevel,
    optimizer: &O,
) -> ParseResult<AST>
    ensures reads { ReadsTextAsAst (O.makes optimizer.now) engine.now constants.entry level limits text.now result }
    ensures nowhere { IfErr result MemoryIsNowhere }
{
    let mut input = stream_of(alloc, text, limits)?;
    let mut lib = FnLib::new(alloc);
    let state = ParseState::new(alloc, constants, &mut input, TokenizerControl, &mut lib);
    engine.parse_with(state, level, optimizer)
}

/// Reads the text of one expression, under the engine's settings for one, as an [`AST`] of that alone, which is not
/// optimized. Errors are as those of [`compile`].
pub fn compile_expression(
    alloc: Global,
    engine: &Engine,
    text: &str,
    limits: Limits,
) -> ParseResult<AST>
    ensures reads { ReadsTextAsExpression unoptimized engine.now None level.None limits text.now result }
    ensures nowhere { IfErr result MemoryIsNowhere }
{
    let level = OptimizationLevel::None;
    compile_expression_with(alloc, engine, text, limits, None, level, &Unoptimized)
}

/// Reads the text of one expression as [`compile_expression`] does, with these variables from outside, and hands it,
/// with its closures, to an optimizer, as [`compile_with`] does.
pub fn compile_expression_with<O: Optimizer>(
    alloc: Global,
    engine: &Engine,
    text: &str,
    limits: Limits,
    constants: Option<&Scope>,
    level: OptimizationLevel,
    optimizer: &O,
) -> ParseResult<AST>
    ensures reads { ReadsTextAsExpression (O.makes optimizer.now) engine.now constants.entry level limits text.now
        result }
    ensures nowhere { IfErr result MemoryIsNowhere }
{
    let mut input = stream_of(alloc, text, limits)?;
    let mut lib = FnLib::new(alloc);
    let state = ParseState::new(alloc, constants, &mut input, TokenizerControl, &mut lib);
    engine.parse_global_expr_with(state, |_settings| {}, level, optimizer)
}

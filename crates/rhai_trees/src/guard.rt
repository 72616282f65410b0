//! `test_guard`, `test_iterated`: what a guard may be, and what `for` may go over.

ghost use Rattle.std.specs.Prelude.{◌≡◌, IfErr, IfOk, None, OnOk, Some, false, option_map};
ghost use Rattle.rhai_lower.specs.Nodes.{start_of};
ghost use Rattle.rhai_lower.specs.View.{view};
ghost use Rattle.rhai_grammar.specs.Causes.{MemoryIsNowhere, MismatchedType, Says, cause_of, is_for_memory, refusal};
ghost use Rattle.rhai_grammar.specs.Causes.{refusal_of};
ghost use Rattle.rhai_grammar.specs.Constructs.{guard_fault, iterated_fault};

use crate::kind::{not_boolean, not_iterable};
use rhai_grammar::{ParseError, ParseErrorType, ParseResult};
use rhai_lower::Expr;
use std::alloc::{AllocError, Global};
use std::rc::RcStr;

// The refusal of an expression that is of the kind `found` where one of the kind `due` is expected.
fn mismatched(alloc: Global, due: &str, found: &str, expr: &Expr) -> ParseError
    ensures { Says (refusal (MismatchedType due.now found.now) (start_of (view expr.now))) result }
{
    match mismatched_type(alloc, due, found) {
        Ok(kind) => ParseError(kind, expr.start_position()),
        Err(error) => ParseError::from(error),
    }
}

// Why such an expression is refused.
fn mismatched_type(alloc: Global, due: &str, found: &str) -> Result<ParseErrorType, AllocError>
    ensures { IfOk result (λ e. cause_of e ≡ MismatchedType due.now found.now) }
{
    let due = RcStr::from_str(alloc, due)?;
    Ok(ParseErrorType::MismatchedType(due, RcStr::from_str(alloc, found)?))
}

/// Refuses a guard, or an operand of `&&` or `||`, that cannot be a boolean.
///
/// The error is `MismatchedType` at the start of the expression, or `OutOfMemory`.
pub fn test_guard(alloc: Global, guard: &Expr) -> ParseResult<()>
    ensures passes { OnOk result (guard_fault (view guard.now) ≡ None) }
    ensures refused { IfErr result (λ e. is_for_memory e ≡ false
        → guard_fault (view guard.now) ≡ Some (refusal_of e)) }
    ensures nowhere { IfErr result MemoryIsNowhere }
{
    match not_boolean(guard) {
        None => Ok(()),
        Some(found) => Err(mismatched(alloc, "a boolean expression", found, guard)),
    }
}

/// Refuses what `for` goes over if it cannot be iterated.
///
/// The error is `MismatchedType` at the start of the expression, or `OutOfMemory`.
pub fn test_iterated(alloc: Global, over: &Expr) -> ParseResult<()>
    ensures passes { OnOk result (iterated_fault (view over.now) ≡ None) }
    ensures refused { IfErr result (λ e. is_for_memory e ≡ false
        → iterated_fault (view over.now) ≡ Some (refusal_of e)) }
    ensures nowhere { IfErr result MemoryIsNowhere }
{
    match not_iterable(over) {
        None => Ok(()),
        Some(found) => Err(mismatched(alloc, "an iterable value", found, over)),
    }
}

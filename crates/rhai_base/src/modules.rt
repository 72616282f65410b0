//! The first names of paths, which under strict variables have to be known.

ghost use Rattle.std.specs.Prelude.{◌≡◌, IfErr, None, OnOk, Some, false};
ghost use Rattle.rhai_lower.specs.Nodes.{variable};
ghost use Rattle.rhai_lower.specs.View.{named, view};
ghost use Rattle.rhai_grammar.specs.Causes.{MemoryIsNowhere, is_for_memory, refusal_of};
ghost use Rattle.rhai_grammar.specs.Contexts.{Context};
ghost use Rattle.rhai_grammar.specs.Modules.{module_fault};
ghost use Rattle.rhai_base.specs.Settings.{settings_of};

use crate::flags::LangOptions;
use crate::frame::Frame;
use crate::settings::ParseSettings;
use rhai_grammar::{ParseError, ParseErrorType, ParseResult};
use rhai_lower::{Expr, Position, VariableExpr};

/// Refuses an operand that is a name with a path, if under strict variables the path's first name is not known.
///
/// The error is `ModuleUndefined` at that name, or `OutOfMemory`.
#[inline(always)]
#[tactic(auto, using(rhai_lower::proofs::Views::view_variable))]
pub fn test_module(frame: &Frame<'_>, settings: ParseSettings, operand: &Expr) -> ParseResult<()>
    ensures passes { (context : Context) → context.settings ≡ settings_of settings
        → context.known ≡ frame.now.known
        → OnOk result (module_fault context frame.now.live (view operand.now) ≡ None) }
    ensures refused { (context : Context) → context.settings ≡ settings_of settings
        → context.known ≡ frame.now.known
        → IfErr result (λ e. is_for_memory e ≡ false
        → module_fault context frame.now.live (view operand.now) ≡ Some (refusal_of e)) }
    ensures nowhere { IfErr result MemoryIsNowhere }
{
    match operand {
        Expr::Variable(name, pos) => test_path(frame, settings, name, *pos),
        _ => Ok(()),
    }
}

/// Refuses a name at `pos` that has a path, if under strict variables the path's first name is not known.
///
/// The error is `ModuleUndefined` at that first name, or `OutOfMemory`.
#[inline(always)]
#[tactic(auto, using(crate::proofs::NameLemmas::faults))]
pub fn test_path(
    frame: &Frame<'_>,
    settings: ParseSettings,
    name: &VariableExpr,
    pos: Position,
) -> ParseResult<()>
    ensures passes { (context : Context) → context.settings ≡ settings_of settings
        → context.known ≡ frame.now.known
        → OnOk result (module_fault context frame.now.live (variable (named name.now) pos) ≡ None) }
    ensures refused { (context : Context) → context.settings ≡ settings_of settings
        → context.known ≡ frame.now.known
        → IfErr result (λ e. is_for_memory e ≡ false
        → module_fault context frame.now.live (variable (named name.now) pos) ≡ Some (refusal_of e)) }
    ensures nowhere { IfErr result MemoryIsNowhere }
{
    let Some(root) = name.namespace.path.first() else {
        return Ok(());
    };
    if frame.may_enter(settings.has_option(LangOptions::STRICT_VAR), &root.name) {
        return Ok(());
    }
    Err(ParseError(
        ParseErrorType::ModuleUndefined(root.name.clone()?),
        root.pos,
    ))
}

//! The nodes of names, with and without a path, of reserved words, and of calls.

ghost use Rattle.std.specs.Prelude.{◌≡◌, ◌+◌, None, Some, IfErr, IfOk, option_map, false};
ghost use Rattle.std.specs.Int.NonZero.{non_zero_usize_get};
ghost use Rattle.std.specs.Rc.{rc_str_bytes};
ghost use Rattle.rhai_lower.specs.View.{called, module_index_of, named, path_of, view, views};
ghost use Rattle.rhai_lower.specs.declared.expr.FnCallExpr.{out-FnCallExpr};
ghost use Rattle.rhai_lower.specs.Nodes.{variable};
ghost use Rattle.rhai_grammar.specs.Answers.{Answers};
ghost use Rattle.rhai_grammar.specs.Beginnings.{is_this, may_be_called};
ghost use Rattle.rhai_grammar.specs.Causes.{MemoryIsNowhere};
ghost use Rattle.rhai_grammar.specs.Modules.{is_qualified, qualified, root_of};
ghost use Rattle.rhai_grammar.specs.Settings.{strict_names};
ghost use Rattle.rhai_grammar.specs.Trees.{call_tree, is_variable, method_tree, node_count, variable_of};
ghost use Rattle.rhai_base.specs.Libraries.{library_of};
ghost use Rattle.rhai_base.specs.Settings.{settings_of};
ghost use Rattle.rhai_base.specs.Words.{name_result, word_result};

use crate::flags::{LangOptions, ParseSettingFlags};
use crate::frame::Frame;
use crate::library::Library;
use crate::settings::ParseSettings;
use rhai_grammar::{InputError, ParseError, ParseErrorType, ParseResult};
use rhai_lower::{
    Expr, FnCallExpr, Ident, Namespace, Position, VariableExpr, is_reserved_keyword_or_symbol,
};
use std::alloc::{AllocError, Global};
use std::num::NonZeroUsize;
use std::rc::RcStr;

/// What calls a name.
#[derive(Drop)]
pub struct Call {
    /// Whether it has a `!`.
    pub bang: bool,
    /// The arguments.
    pub args: Vec<Expr>,
}

// The use of a variable. The error is that there is no memory for it.
#[tactic(auto, using(rhai_lower::proofs::Views::view_variable))]
fn variable(
    alloc: Global,
    index: Option<NonZeroUsize>,
    name: RcStr,
    pos: Position,
) -> Result<Expr, AllocError>
    ensures { IfOk result (λ e. view e ≡ variable_of (option_map non_zero_usize_get index) (rc_str_bytes name) pos) }
{
    let variable = VariableExpr {
        index,
        name,
        namespace: Namespace {
            path: Vec::new(alloc),
            index: None,
        },
    };
    Ok(Expr::Variable(Box::new(alloc, variable)?, pos))
}

/// What a name is in this frame: a variable; or where `excluded` says that it is no use of one, since it is called or
/// part of a path, a name without a number.
///
/// Under strict variables a variable that is not known is `VariableUndefined`; if memory runs out, the error is
/// `OutOfMemory`.
pub fn name_node(
    alloc: Global,
    frame: &Frame<'_>,
    library: &Library,
    settings: ParseSettings,
    name: RcStr,
    excluded: bool,
    pos: Position,
) -> ParseResult<Expr>
    ensures answers { Answers view (name_result frame.now.known frame.now.live.slots (library_of library.now)
        (strict_names (settings_of settings)) excluded (rc_str_bytes name) pos) result }
    ensures nowhere { IfErr result MemoryIsNowhere }
{
    if excluded {
        return Ok(variable(alloc, None, name, pos)?);
    }
    if !frame.may_use(settings.has_option(LangOptions::STRICT_VAR), library, &name) {
        return Err(ParseError(ParseErrorType::VariableUndefined(name), pos));
    }
    let index = frame.slot_number(&name);
    Ok(variable(alloc, index, name, pos)?)
}

// Whether a reserved word may be called.
fn may_be_called(word: &str) -> bool
    ensures { result ≡ may_be_called word.now }
{
    is_reserved_keyword_or_symbol(word).1
}

// Whether a reserved word is `this`.
fn is_this(word: &str) -> bool
    ensures { result ≡ is_this word.now }
{
    word == "this"
}

/// What a reserved word or symbol is: the name of a call, or `this` in a function. `this` elsewhere is
/// `ImproperSymbol`, anything else is `Reserved`.
pub fn word_node(
    alloc: Global,
    settings: ParseSettings,
    word: RcStr,
    called: bool,
    pos: Position,
) -> ParseResult<Expr>
    ensures answers { Answers view (word_result (settings_of settings) (rc_str_bytes word) called pos) result }
    ensures nowhere { IfErr result MemoryIsNowhere }
{
    if called && may_be_called(&word) {
        return Ok(variable(alloc, None, word, pos)?);
    }
    if !is_this(&word) {
        return Err(ParseError(ParseErrorType::Reserved(word), pos));
    }
    if settings.has_flag(ParseSettingFlags::FN_SCOPE) {
        return Ok(Expr::ThisPtr(pos));
    }
    let note = RcStr::from_str(alloc, "it can only be used in functions")?;
    let input = InputError::ImproperSymbol(word, note);
    Err(ParseError(ParseErrorType::BadInput(input), pos))
}

/// The parts of a variable, or any other operand as it is.
#[tactic(auto, using(rhai_lower::proofs::Views::view_variable))]
pub fn as_variable(operand: Expr) -> Result<(Box<VariableExpr>, Position), Expr>
    ensures variable { IfOk result (λ v. view operand ≡ variable (named v.0.value) v.1) }
    ensures other { IfErr result (λ e. (view e ≡ view operand) × (is_variable (view operand) ≡ false)) }
{
    match operand {
        Expr::Variable(name, pos) => Ok((name, pos)),
        other => Err(other),
    }
}

/// Whether a name has a path.
#[tactic(auto, using(crate::proofs::NameLemmas::has_path))]
pub fn is_qualified_name(name: &VariableExpr) -> bool
    ensures { (pos : Position) → result ≡ is_qualified (variable (named name.now) pos) }
{
    !name.namespace.path.is_empty()
}

// The first name of a name's path; without a path, the name itself.
#[tactic(auto, using(crate::proofs::NameLemmas::roots))]
fn root_of(name: &VariableExpr) -> &RcStr
    ensures { rc_str_bytes result.now ≡ root_of (path_of name.now.namespace) (rc_str_bytes name.now.name) }
{
    match name.namespace.path.first() {
        Some(root) => &root.name,
        None => &name.name,
    }
}

/// The name after the `::` behind `before`, a variable at `pos`: `before` joins the path as its last name, and the
/// first name of the path refers to the latest import of that name. The error is that there is no memory for it.
#[tactic(auto, using(crate::proofs::NameLemmas::longer_path))]
pub fn qualify(
    alloc: Global,
    frame: &Frame<'_>,
    before: Box<VariableExpr>,
    pos: Position,
    name: RcStr,
) -> Result<Box<VariableExpr>, AllocError>
    ensures { IfOk result (λ v. (at : Position) → variable (named v.value) at
        ≡ qualified frame.now.live.imports (variable (named before.value) pos) (rc_str_bytes name) at) }
{
    let index = frame.find_module(root_of(&before));
    let before = Box::into_inner(before);
    let mut path = before.namespace.path;
    path.push(Ident {
        name: before.name,
        pos,
    })?;
    let qualified = VariableExpr {
        index: None,
        name,
        namespace: Namespace { path, index },
    };
    Ok(Box::new(alloc, qualified)?)
}

// The call of a function, which a script's function may answer, or a native one with `native_args` arguments.
#[tactic(auto, using(crate::proofs::NameLemmas::count_views))]
fn script_call(name: RcStr, namespace: Namespace, native_args: usize, call: Call) -> FnCallExpr
    ensures called { called result ≡ record {
      name = rc_str_bytes name;
      path = path_of namespace;
      module_index = module_index_of namespace;
      script_args = Some (node_count (views call.args.items));
      native_args = native_args;
      captures_scope = call.bang;
      op_token = None;
    } }
    ensures args { views (out-FnCallExpr result).args.items ≡ views call.args.items }
{
    FnCallExpr {
        name,
        namespace,
        script_args: Some(call.args.len()),
        native_args,
        args: call.args,
        capture_parent_scope: call.bang,
        op_token: None,
    }
}

/// The call of a name, with its path, which stands at the name. The error is that there is no memory for it.
#[inline(always)]
#[tactic(auto, using(rhai_lower::proofs::Views::view_call, crate::proofs::NameLemmas::count_views))]
pub fn make_call(
    alloc: Global,
    name: Box<VariableExpr>,
    pos: Position,
    call: Call,
) -> Result<Expr, AllocError>
    ensures { IfOk result (λ e. view e
        ≡ call_tree (variable (named name.value) pos) call.bang (views call.args.items)) }
{
    let called = Box::into_inner(name);
    let native_args = call.args.len();
    let call = script_call(called.name, called.namespace, native_args, call);
    Ok(Expr::FnCall(Box::new(alloc, call)?, pos))
}

/// The call of a method, which stands at its name. The error is that there is no memory for it.
#[tactic(auto, using(rhai_lower::proofs::Views::view_method_call, crate::proofs::NameLemmas::count_views))]
pub fn make_method(
    alloc: Global,
    name: RcStr,
    pos: Position,
    call: Call,
) -> Result<Expr, AllocError>
    ensures { IfOk result (λ e. view e ≡ method_tree (rc_str_bytes name) pos call.bang (views call.args.items)) }
{
    let namespace = Namespace {
        path: Vec::new(alloc),
        index: None,
    };
    let native_args = call.args.len() + 1;
    let method = script_call(name, namespace, native_args, call);
    Ok(Expr::MethodCall(Box::new(alloc, method)?, pos))
}

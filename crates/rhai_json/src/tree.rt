//! `tree_json`: a script's tree.

ghost use Rattle.std.specs.Prelude.{◌≡◌, [], IfOk, OnOk, codes, map, string_bytes};
ghost use Rattle.json.specs.Print.{print};
ghost use Rattle.rhai_lower.specs.View.{function_view, statement_views};
ghost use Rattle.rhai_json.specs.Fields.{list_field};
ghost use Rattle.rhai_json.specs.Left.{pieces};
ghost use Rattle.rhai_json.specs.Trees.{function_json, head_fields, script_json};

use crate::fields::{put_flag, put_optional_text, put_text, put_texts};
use crate::out::Out;
use crate::printer::{Part, Printer};
use rhai_lower::{AST, ScriptFuncDef};
use std::alloc::{AllocError, Global};
use std::rc::Rc;

// What is known of a function beside its body.
fn put_head(out: &mut Out, function: &ScriptFuncDef) -> Result<(), AllocError>
    ensures { OnOk result (out.new ≡ head_fields (function_view function.now) out.old) }
{
    put_text(out, "name", &function.name)?;
    let this_type = function.this_type.as_ref().map(|name| name.as_str());
    put_optional_text(out, "this_type", this_type)?;
    put_flag(out, "private", function.private)?;
    put_texts(out, "params", &function.params)?;
    put_texts(out, "comments", &function.comments)
}

fn put_function<'a>(
    printer: &mut Printer<'a>,
    function: &'a ScriptFuncDef,
) -> Result<(), AllocError>
    requires { pieces printer.old ≡ [] }
    ensures left { OnOk result (pieces printer.new ≡ []) }
    ensures out { OnOk result (printer.new.out ≡ function_json (function_view function.now) printer.old.out) }
{
    printer.out.begin_object()?;
    put_head(&mut printer.out, function)?;
    printer.out.key("body")?;
    printer.put(Part::Block(&function.body))?;
    printer.out.end_object()
}

fn put_functions<'a>(
    printer: &mut Printer<'a>,
    functions: &'a [Rc<ScriptFuncDef>],
) -> Result<(), AllocError>
    requires { pieces printer.old ≡ [] }
    ensures { OnOk result (printer.new.out
        ≡ list_field (codes "functions") function_json (map (λ f. function_view f.value) functions.now)
        printer.old.out) }
{
    printer.out.key("functions")?;
    printer.out.begin_array()?;
    for function in functions {
        put_function(printer, function)?;
    }
    printer.out.end_array()
}

/// A script's tree as JSON: its statements, and its functions and closures in the order in which they end.
/// docs/JSON.md has the object of each node.
///
/// It nests as deep as the tree: a run `a + b + ..` nests to the left, and a chain `a.b.c` to the right, each one
/// object deeper for each operand or link. Writing it takes no stack for that. Returns `AllocError` if memory runs
/// out.
pub fn tree_json(alloc: Global, script: &AST) -> Result<String, AllocError>
    ensures { IfOk result (λ text. string_bytes text
        ≡ print (script_json (statement_views script.now.statements.items)
        (map (λ f. function_view f.value) script.now.functions.items))) }
{
    let mut printer = Printer::new(alloc, Out::new(alloc));
    printer.out.begin_object()?;
    printer.out.key("statements")?;
    printer.out.begin_array()?;
    printer.put(Part::Stmts(&script.statements))?;
    put_functions(&mut printer, &script.functions)?;
    printer.out.end_object()?;
    Ok(printer.into_text())
}

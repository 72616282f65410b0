//! What is written of an expression: its kind and its fields, and what stands in it.

ghost use Rattle.std.specs.Prelude.{◌≡◌, ◌<◌, ◌+◌, List, OnOk, codes};
ghost use Rattle.std.specs.Char.{encode_utf8};
ghost use Rattle.json.specs.Token.{Token};
ghost use Rattle.rhai_lower.specs.View.{called, named, view};
ghost use Rattle.rhai_json.specs.Fields.{◌▷◌, number_field, text_field};
ghost use Rattle.rhai_json.specs.Left.{all_json, block, node, node_weight, piece_json, pieces, properties, weight};
ghost use Rattle.rhai_json.specs.Left.{weights};
ghost use Rattle.rhai_json.specs.Trees.{begun, call_fields, kind_of, link_fields, node_json, own_fields};
ghost use Rattle.rhai_json.specs.Trees.{variable_fields};

use crate::fields::{
    begin_node, put_flag, put_integer, put_namespace, put_number, put_offset, put_optional_number,
    put_sign, put_text,
};
use crate::out::Out;
use crate::printer::{Part, Printer};
use rhai_lower::{Expr, FnCallExpr, LinkFlags, VariableExpr};
use std::alloc::AllocError;

// Rhai's name of the kind of an expression.
#[tactic(auto, unfolding(crate::specs::Trees::kind_of))]
fn expr_kind(expr: &Expr) -> &'static str
    ensures { result.now ≡ kind_of (view expr.now) }
{
    match expr {
        Expr::Unit(_) => "Unit",
        Expr::BoolConstant(_, _) => "BoolConstant",
        Expr::IntegerConstant(_, _) => "IntegerConstant",
        Expr::CharConstant(_, _) => "CharConstant",
        Expr::StringConstant(_, _) => "StringConstant",
        Expr::InterpolatedString(_, _) => "InterpolatedString",
        Expr::Array(_, _) => "Array",
        Expr::Map(_, _) => "Map",
        Expr::FnPointer(_, _, _) => "FnPointer",
        Expr::Variable(_, _) => "Variable",
        Expr::ThisPtr(_) => "ThisPtr",
        Expr::Property(_, _) => "Property",
        Expr::FnCall(_, _) => "FnCall",
        Expr::MethodCall(_, _) => "MethodCall",
        Expr::Dot(_, _, _) => "Dot",
        Expr::Index(_, _, _) => "Index",
        Expr::And(_, _) => "And",
        Expr::Or(_, _) => "Or",
        Expr::Coalesce(_, _) => "Coalesce",
        Expr::Stmt(_) => "Stmt",
    }
}

#[tactic(auto, unfolding(crate::specs::Fields::text_field))]
fn put_character(out: &mut Out, character: char) -> Result<(), AllocError>
    ensures { OnOk result (out.new ≡ text_field (codes "value") (encode_utf8 character) out.old) }
{
    out.key("value")?;
    out.character(character)
}

fn put_pointer(out: &mut Out, name: &str, params: usize) -> Result<(), AllocError>
    ensures { OnOk result (out.new
        ≡ out.old ▷ text_field (codes "name") name.now ▷ number_field (codes "params") params) }
{
    put_text(out, "name", name)?;
    put_number(out, "params", params)
}

fn put_variable(out: &mut Out, variable: &VariableExpr) -> Result<(), AllocError>
    ensures { OnOk result (out.new ≡ variable_fields (named variable.now) out.old) }
{
    put_offset(out, "index", variable.index)?;
    put_text(out, "name", &variable.name)?;
    put_namespace(out, &variable.namespace)
}

fn put_call(out: &mut Out, call: &FnCallExpr) -> Result<(), AllocError>
    ensures { OnOk result (out.new ≡ call_fields (called call.now) out.old) }
{
    put_text(out, "name", &call.name)?;
    put_namespace(out, &call.namespace)?;
    put_optional_number(out, "script_args", call.script_args)?;
    put_number(out, "native_args", call.native_args)?;
    put_flag(out, "capture_parent_scope", call.capture_parent_scope)?;
    put_sign(out, "op_token", &call.op_token)
}

fn put_link(out: &mut Out, flags: LinkFlags) -> Result<(), AllocError>
    ensures { OnOk result (out.new ≡ link_fields flags out.old) }
{
    put_flag(out, "negated", flags.negated)?;
    put_flag(out, "terminating", flags.terminating)
}

// The fields of an expression that hold no further node.
#[tactic(auto, unfolding(crate::specs::Trees::own_fields))]
fn put_expr_fields(out: &mut Out, expr: &Expr) -> Result<(), AllocError>
    ensures { OnOk result (out.new ≡ own_fields (view expr.now) out.old) }
{
    match expr {
        Expr::BoolConstant(value, _) => put_flag(out, "value", *value),
        Expr::IntegerConstant(value, _) => put_integer(out, "value", *value),
        Expr::CharConstant(value, _) => put_character(out, *value),
        Expr::StringConstant(value, _) => put_text(out, "value", value),
        Expr::FnPointer(name, params, _) => put_pointer(out, name, *params),
        Expr::Variable(variable, _) => put_variable(out, variable),
        Expr::Property(name, _) => put_text(out, "name", name),
        Expr::FnCall(call, _) | Expr::MethodCall(call, _) => put_call(out, call),
        Expr::Dot(_, flags, _) | Expr::Index(_, flags, _) => put_link(out, *flags),
        Expr::Unit(_)
        | Expr::InterpolatedString(_, _)
        | Expr::Array(_, _)
        | Expr::Map(_, _)
        | Expr::ThisPtr(_)
        | Expr::And(_, _)
        | Expr::Or(_, _)
        | Expr::Coalesce(_, _)
        | Expr::Stmt(_) => Ok(()),
    }
}

impl<'a> Printer<'a> {
    // What stands in an expression, and the end of its object.
    #[tactic(auto, using(rhai_lower::proofs::Views::view_map), unfolding(crate::specs::Left::node_weight, crate::specs::Trees::node_json))]
    fn push_parts(&mut self, expr: &'a Expr) -> Result<(), AllocError>
        ensures out { self.new.out ≡ self.old.out }
        ensures same { OnOk result ((ts : List Token) → all_json (pieces self.new) (begun (view expr.now) ts)
            ≡ all_json (pieces self.old) (node_json (view expr.now) ts)) }
        ensures less { OnOk result
            (weights (pieces self.new) < node_weight (view expr.now) + weights (pieces self.old)) }
    {
        self.push(Part::EndObject)?;
        match expr {
            Expr::InterpolatedString(parts, _) => self.push_list("parts", Part::Exprs(parts)),
            Expr::Array(items, _) => self.push_list("items", Part::Exprs(items)),
            Expr::And(list, _) | Expr::Or(list, _) | Expr::Coalesce(list, _) => {
                self.push_list("operands", Part::Exprs(list))
            }
            Expr::Map(properties, _) => {
                self.push_list("properties", Part::Properties(properties))
            }
            Expr::FnCall(call, _) | Expr::MethodCall(call, _) => {
                self.push_list("args", Part::Exprs(&call.args))
            }
            Expr::Dot(pair, _, _) | Expr::Index(pair, _, _) => self.push_pair(pair),
            Expr::Stmt(block) => self.push_member("block", Part::Block(block)),
            Expr::Unit(_)
            | Expr::BoolConstant(_, _)
            | Expr::IntegerConstant(_, _)
            | Expr::CharConstant(_, _)
            | Expr::StringConstant(_, _)
            | Expr::FnPointer(_, _, _)
            | Expr::Variable(_, _)
            | Expr::ThisPtr(_)
            | Expr::Property(_, _) => Ok(()),
        }
    }

    /// Writes what begins an expression; what stands in it, and its end, are left.
    pub(crate) fn put_expr(&mut self, expr: &'a Expr) -> Result<(), AllocError>
        ensures same { OnOk result (all_json (pieces self.new) self.new.out
            ≡ all_json (pieces self.old) (piece_json (node (view expr.now)) self.old.out)) }
        ensures less { OnOk result
            (weights (pieces self.new) < weight (node (view expr.now)) + weights (pieces self.old)) }
    {
        begin_node(&mut self.out, expr_kind(expr), expr.position())?;
        put_expr_fields(&mut self.out, expr)?;
        self.push_parts(expr)
    }
}

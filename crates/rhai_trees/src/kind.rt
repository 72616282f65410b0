//! Tests on trees: what values a node cannot have, and constants.

ghost use Rattle.std.specs.Prelude.{◌≡◌, option_map};
ghost use Rattle.rhai_lower.specs.View.{property_views, view, views};
ghost use Rattle.rhai_grammar.specs.Kinds.{are_constant, have_constants, Counted, Keyed, index_fault, index_kind};
ghost use Rattle.rhai_grammar.specs.Kinds.{indexed, kind_fault, is_constant, not_boolean, not_iterable};
ghost use Rattle.rhai_trees.specs.Views.{index_kind_view, indexed_view};

use rhai_lower::{Expr, Ident};

/// What an operand takes as an index.
#[derive(Clone, Copy)]
pub(crate) enum Indexed {
    /// A string, as an object map does.
    Keyed,
    /// A number, as an array, a string or an integer does.
    Counted,
    /// Unknown.
    Unknown,
}

/// The kind of an index.
#[derive(Clone, Copy)]
pub(crate) enum IndexKind {
    /// A number.
    Number,
    /// A string.
    Words,
    /// A character.
    Character,
    /// Unit.
    Unit,
    /// A boolean.
    Boolean,
    /// Unknown.
    Anything,
}

/// The kind of an expression that cannot be a boolean, as errors name it; `None` if it can be one. Does not allocate.
pub fn not_boolean(expr: &Expr) -> Option<&'static str>
    ensures { option_map (λ t. t.now) result ≡ not_boolean (view expr.now) }
{
    match expr {
        Expr::Unit(_) => Some("()"),
        Expr::FnPointer(_, _, _) => Some("Fn"),
        Expr::IntegerConstant(_, _) => Some("a number"),
        Expr::CharConstant(_, _) => Some("a character"),
        Expr::StringConstant(_, _) | Expr::InterpolatedString(_, _) => Some("a string"),
        Expr::Array(_, _) => Some("an array"),
        Expr::Map(_, _) => Some("an object map"),
        _ => None,
    }
}

/// The kind of an expression that `for` cannot iterate over, as errors name it; `None` if it can. Does not allocate.
pub fn not_iterable(expr: &Expr) -> Option<&'static str>
    ensures { option_map (λ t. t.now) result ≡ not_iterable (view expr.now) }
{
    match expr {
        Expr::Unit(_) => Some("()"),
        Expr::BoolConstant(_, _) => Some("a boolean"),
        Expr::IntegerConstant(_, _) => Some("a number"),
        Expr::CharConstant(_, _) => Some("a character"),
        Expr::Map(_, _) => Some("an object map"),
        _ => None,
    }
}

/// Why an index is not allowed in the first bracket after an operand, as the error says it; `None` if it is allowed
/// (docs/GRAMMAR.md, "Chains"). Does not allocate.
pub fn index_fault(root: &Expr, index: &Expr) -> Option<&'static str>
    ensures { option_map (λ t. t.now) result ≡ index_fault (view root.now) (view index.now) }
{
    match index_due(root) {
        Indexed::Keyed => key_fault(index_kind(index)),
        Indexed::Counted => count_fault(index_kind(index)),
        Indexed::Unknown => None,
    }
}

// Why an object map does not take an index of this kind.
fn key_fault(index: IndexKind) -> Option<&'static str>
    ensures { option_map (λ t. t.now) result ≡ kind_fault Keyed (index_kind_view index) }
{
    match index {
        IndexKind::Number => Some("Object map expects string index, not a number"),
        IndexKind::Character => Some("Object map expects string index, not a character"),
        IndexKind::Unit => Some("Object map expects string index, not ()"),
        IndexKind::Boolean => Some("Object map expects string index, not a boolean"),
        IndexKind::Words | IndexKind::Anything => None,
    }
}

// Why an array, a string or an integer does not take an index of this kind.
fn count_fault(index: IndexKind) -> Option<&'static str>
    ensures { option_map (λ t. t.now) result ≡ kind_fault Counted (index_kind_view index) }
{
    match index {
        IndexKind::Words => {
            Some("Array, string or bit-field expects numeric index, not a string")
        }
        IndexKind::Character => {
            Some("Array, string or bit-field expects integer index, not a character")
        }
        IndexKind::Unit => Some("Array, string or bit-field expects integer index, not ()"),
        IndexKind::Boolean => {
            Some("Array, string or bit-field expects integer index, not a boolean")
        }
        IndexKind::Number | IndexKind::Anything => None,
    }
}

// What an operand takes as an index.
fn index_due(root: &Expr) -> Indexed
    ensures { indexed_view result ≡ indexed (view root.now) }
{
    match root {
        Expr::Map(_, _) => Indexed::Keyed,
        Expr::IntegerConstant(_, _)
        | Expr::Array(_, _)
        | Expr::StringConstant(_, _)
        | Expr::InterpolatedString(_, _) => Indexed::Counted,
        _ => Indexed::Unknown,
    }
}

// The kind of an index.
fn index_kind(index: &Expr) -> IndexKind
    ensures { index_kind_view result ≡ index_kind (view index.now) }
{
    match index {
        Expr::IntegerConstant(_, _) => IndexKind::Number,
        Expr::StringConstant(_, _) | Expr::InterpolatedString(_, _) => IndexKind::Words,
        Expr::CharConstant(_, _) => IndexKind::Character,
        Expr::Unit(_) => IndexKind::Unit,
        Expr::BoolConstant(_, _) | Expr::And(_, _) | Expr::Or(_, _) => IndexKind::Boolean,
        _ => IndexKind::Anything,
    }
}

/// Whether an expression is a constant: a literal without parts, or an array or object map of constants. Does not
/// allocate.
#[cycle(constants)]
#[tactic(auto, using(rhai_lower::proofs::Views::view_map))]
pub fn is_constant(expr: &Expr) -> bool
    ensures { result ≡ is_constant (view expr.now) }
{
    match expr {
        Expr::Unit(_)
        | Expr::BoolConstant(_, _)
        | Expr::IntegerConstant(_, _)
        | Expr::CharConstant(_, _)
        | Expr::StringConstant(_, _)
        | Expr::FnPointer(_, _, _) => true,
        Expr::Array(items, _) => are_constant(items),
        Expr::Map(properties, _) => have_constants(properties),
        _ => false,
    }
}

#[cycle(constants)]
fn are_constant(items: &[Expr]) -> bool
    ensures { result ≡ are_constant (views items.now) }
{
    for item in items {
        if !is_constant(item) {
            return false;
        }
    }
    true
}

#[cycle(constants)]
fn have_constants(properties: &[(Ident, Expr)]) -> bool
    ensures { result ≡ have_constants (property_views properties.now) }
{
    for property in properties {
        if !is_constant(&property.1) {
            return false;
        }
    }
    true
}

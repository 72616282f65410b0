//! `Printer`: a tree, written without recursion. A chain and a run of operators nest as deep as they are long, so what
//! is still to be written is kept in a list.

mod expr;
mod stmt;

ghost use Rattle.std.specs.Prelude.{◌≡◌, ◌<◌, ◌+◌, ◌∷◌, [], List, OnOk, codes, string_bytes};
ghost use Rattle.json.specs.Print.{print};
ghost use Rattle.json.specs.Token.{Token};
ghost use Rattle.rhai_lower.specs.View.{arm_views, block_view, case_views, property_views, statement_views};
ghost use Rattle.rhai_lower.specs.View.{view, views};
ghost use Rattle.rhai_lower.specs.declared.expr.BinaryExpr.{out-BinaryExpr};
ghost use Rattle.rhai_json.specs.Left.{all_json, arms, block, cases, list_of, name, node, nodes, piece_json};
ghost use Rattle.rhai_json.specs.Left.{piece_of, pieces, properties, statements, weight, weights};

use crate::cases::put_indices;
use crate::fields::{put_ident, put_position};
use crate::out::Out;
use rhai_lower::{BinaryExpr, Expr, Ident, Stmt, StmtBlock, SwitchCase};
use std::alloc::{AllocError, Global};

/// A part that is still to be written. Of a list these are the items that are left, and its end.
#[derive(Clone, Copy)]
pub enum Part<'a> {
    Expr(&'a Expr),
    Exprs(&'a [Expr]),
    Properties(&'a [(Ident, Expr)]),
    Stmts(&'a [Stmt]),
    Block(&'a StmtBlock),
    Arms(&'a [BinaryExpr]),
    Cases(&'a [SwitchCase]),
    /// The key of what comes next.
    Key(&'static str),
    /// The key of a list that comes next, and its beginning.
    List(&'static str),
    EndObject,
    Null,
}

/// What was written so far, and what is still to be written: the part that comes next is the last one.
#[derive(Drop)]
pub struct Printer<'a> {
    pub out: Out,
    left: Vec<Part<'a>>,
}

impl<'a> Printer<'a> {
    /// Goes on after what was written. Does not allocate.
    #[tactic(auto, using(crate::proofs::LeftLemmas::none_left))]
    pub fn new(alloc: Global, out: Out) -> Self
        ensures out { result.out ≡ out }
        ensures left { pieces result ≡ [] }
    {
        Printer {
            out,
            left: Vec::new(alloc),
        }
    }

    /// The text that was written.
    pub fn into_text(self) -> String
        ensures { string_bytes result ≡ print self.entry.out }
    {
        let Printer { out, left: _ } = self;
        out.into_text()
    }

    #[tactic(auto, using(crate::proofs::LeftLemmas::pushed))]
    fn push(&mut self, part: Part<'a>) -> Result<(), AllocError>
        ensures out { self.new.out ≡ self.old.out }
        ensures left { OnOk result (pieces self.new ≡ piece_of part.entry ∷ pieces self.old) }
    {
        self.left.push(part)?;
        Ok(())
    }

    // A part and its key.
    fn push_member(&mut self, key: &'static str, part: Part<'a>) -> Result<(), AllocError>
        ensures out { self.new.out ≡ self.old.out }
        ensures left { OnOk result (pieces self.new ≡ name key.now ∷ piece_of part.entry ∷ pieces self.old) }
    {
        self.push(part)?;
        self.push(Part::Key(key))
    }

    fn push_list(&mut self, key: &'static str, part: Part<'a>) -> Result<(), AllocError>
        ensures out { self.new.out ≡ self.old.out }
        ensures left { OnOk result (pieces self.new ≡ list_of key.now ∷ piece_of part.entry ∷ pieces self.old) }
    {
        self.push(part)?;
        self.push(Part::List(key))
    }

    fn push_pair(&mut self, pair: &'a BinaryExpr) -> Result<(), AllocError>
        ensures out { self.new.out ≡ self.old.out }
        ensures left { OnOk result (pieces self.new ≡ name (codes "lhs") ∷ node (view (out-BinaryExpr pair.now).lhs)
            ∷ name (codes "rhs") ∷ node (view (out-BinaryExpr pair.now).rhs) ∷ pieces self.old) }
    {
        self.push_member("rhs", Part::Expr(&pair.rhs))?;
        self.push_member("lhs", Part::Expr(&pair.lhs))
    }

    #[tactic(auto, unfolding(crate::specs::Left::block_weight, crate::specs::Trees::block_json))]
    fn put_block(&mut self, body: &'a StmtBlock) -> Result<(), AllocError>
        ensures same { OnOk result (all_json (pieces self.new) self.new.out
            ≡ all_json (pieces self.old) (piece_json (block (block_view body.now)) self.old.out)) }
        ensures less { OnOk result
            (weights (pieces self.new) < weight (block (block_view body.now)) + weights (pieces self.old)) }
    {
        self.out.begin_object()?;
        put_position(&mut self.out, "start", body.start)?;
        put_position(&mut self.out, "end", body.end)?;
        self.push(Part::EndObject)?;
        self.push_list("statements", Part::Stmts(&body.statements))
    }

    #[tactic(auto, unfolding(crate::specs::Left::nodes_weight, crate::specs::Trees::nodes_json))]
    fn put_exprs(&mut self, list: &'a [Expr]) -> Result<(), AllocError>
        ensures same { OnOk result (all_json (pieces self.new) self.new.out
            ≡ all_json (pieces self.old) (piece_json (nodes (views list.now)) self.old.out)) }
        ensures less { OnOk result
            (weights (pieces self.new) < weight (nodes (views list.now)) + weights (pieces self.old)) }
    {
        match list.split_first() {
            None => self.out.end_array(),
            Some((first, others)) => {
                self.push(Part::Exprs(others))?;
                self.put_expr(first)
            }
        }
    }

    #[tactic(auto, unfolding(crate::specs::Left::statements_weight, crate::specs::Trees::statements_json))]
    fn put_statements(&mut self, list: &'a [Stmt]) -> Result<(), AllocError>
        ensures same { OnOk result (all_json (pieces self.new) self.new.out
            ≡ all_json (pieces self.old) (piece_json (statements (statement_views list.now)) self.old.out)) }
        ensures less { OnOk result
            (weights (pieces self.new) < weight (statements (statement_views list.now)) + weights (pieces self.old)) }
    {
        match list.split_first() {
            None => self.out.end_array(),
            Some((first, others)) => {
                self.push(Part::Stmts(others))?;
                self.put_statement(first)
            }
        }
    }

    #[tactic(auto, unfolding(crate::specs::Left::properties_weight, crate::specs::Trees::properties_json))]
    fn put_properties(&mut self, list: &'a [(Ident, Expr)]) -> Result<(), AllocError>
        ensures same { OnOk result (all_json (pieces self.new) self.new.out
            ≡ all_json (pieces self.old) (piece_json (properties (property_views list.now)) self.old.out)) }
        ensures less { OnOk result
            (weights (pieces self.new) < weight (properties (property_views list.now)) + weights (pieces self.old)) }
    {
        match list.split_first() {
            None => self.out.end_array(),
            Some((first, others)) => {
                self.push(Part::Properties(others))?;
                self.out.begin_object()?;
                put_ident(&mut self.out, &first.0)?;
                self.push(Part::EndObject)?;
                self.push_member("value", Part::Expr(&first.1))
            }
        }
    }

    #[tactic(auto, unfolding(crate::specs::Left::arms_weight, crate::specs::Trees::arms_json))]
    fn put_arms(&mut self, list: &'a [BinaryExpr]) -> Result<(), AllocError>
        ensures same { OnOk result (all_json (pieces self.new) self.new.out
            ≡ all_json (pieces self.old) (piece_json (arms (arm_views list.now)) self.old.out)) }
        ensures less { OnOk result
            (weights (pieces self.new) < weight (arms (arm_views list.now)) + weights (pieces self.old)) }
    {
        match list.split_first() {
            None => self.out.end_array(),
            Some((first, others)) => {
                self.push(Part::Arms(others))?;
                self.out.begin_object()?;
                self.push(Part::EndObject)?;
                self.push_pair(first)
            }
        }
    }

    #[tactic(auto, unfolding(crate::specs::Left::cases_weight, crate::specs::Trees::cases_json))]
    fn put_cases(&mut self, list: &'a [SwitchCase]) -> Result<(), AllocError>
        ensures same { OnOk result (all_json (pieces self.new) self.new.out
            ≡ all_json (pieces self.old) (piece_json (cases (case_views list.now)) self.old.out)) }
        ensures less { OnOk result
            (weights (pieces self.new) < weight (cases (case_views list.now)) + weights (pieces self.old)) }
    {
        match list.split_first() {
            None => self.out.end_array(),
            Some((first, others)) => {
                self.push(Part::Cases(others))?;
                self.out.begin_object()?;
                put_indices(&mut self.out, first)?;
                self.push(Part::EndObject)?;
                self.push_member("value", Part::Expr(&first.value))
            }
        }
    }

    fn put_list_start(&mut self, key: &'static str) -> Result<(), AllocError>
        ensures left { self.new.left ≡ self.old.left }
        ensures out { OnOk result (self.new.out ≡ piece_json (list_of key.now) self.old.out) }
    {
        self.out.key(key)?;
        self.out.begin_array()
    }

    // Writes the front of a part; what stands behind it comes next.
    fn put_part(&mut self, part: Part<'a>) -> Result<(), AllocError>
        ensures same { OnOk result (all_json (pieces self.new) self.new.out
            ≡ all_json (pieces self.old) (piece_json (piece_of part.entry) self.old.out)) }
        ensures less { OnOk result
            (weights (pieces self.new) < weight (piece_of part.entry) + weights (pieces self.old)) }
    {
        match part {
            Part::Expr(expr) => self.put_expr(expr),
            Part::Exprs(list) => self.put_exprs(list),
            Part::Properties(list) => self.put_properties(list),
            Part::Stmts(list) => self.put_statements(list),
            Part::Block(block) => self.put_block(block),
            Part::Arms(list) => self.put_arms(list),
            Part::Cases(list) => self.put_cases(list),
            Part::Key(key) => self.out.key(key),
            Part::List(key) => self.put_list_start(key),
            Part::EndObject => self.out.end_object(),
            Part::Null => self.out.null(),
        }
    }

    /// Writes a part of a tree, with all that stands in it.
    pub fn put(&mut self, part: Part<'a>) -> Result<(), AllocError>
        requires { pieces self.old ≡ [] }
        ensures left { OnOk result (pieces self.new ≡ []) }
        ensures out { OnOk result (self.new.out ≡ piece_json (piece_of part.entry) self.old.out) }
    {
        self.push(part)?;
        while let Some(part) = self.left.pop() {
            self.put_part(part)?;
        }
        Ok(())
    }
}

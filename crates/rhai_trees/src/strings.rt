//! Interpolated strings: lists of their texts and blocks.

ghost use Rattle.std.specs.Prelude.{◌≡◌, OnOk};
ghost use Rattle.std.specs.Rc.{rc_str_bytes};
ghost use Rattle.rhai_lower.specs.Nodes.{block_value, with_node};
ghost use Rattle.rhai_lower.specs.View.{block_view, views};
ghost use Rattle.rhai_grammar.specs.Interpolations.{added_text};

use crate::statement::make_block_value;
use rhai_lower::{Expr, Position, StmtBlock};
use std::alloc::AllocError;
use std::rc::RcStr;

/// Adds a text, which is at `pos`, to the segments of an interpolated string, unless it is empty. Returns `AllocError`
/// if memory runs out.
#[tactic(auto, using(crate::proofs::StringLemmas::added))]
pub fn push_text(segments: &mut Vec<Expr>, text: RcStr, pos: Position) -> Result<(), AllocError>
    ensures { OnOk result (views segments.new.items
        ≡ added_text (views segments.old.items) (rc_str_bytes text) pos) }
{
    if text.is_empty() {
        return Ok(());
    }
    segments.push(Expr::StringConstant(text, pos))?;
    Ok(())
}

// Adds a block to the segments of an interpolated string.
#[tactic(auto, using(rhai_lower::proofs::Views::views_push))]
fn push_block(segments: &mut Vec<Expr>, block: StmtBlock) -> Result<(), AllocError>
    ensures { OnOk result (views segments.new.items
        ≡ with_node (views segments.old.items) (block_value (block_view block))) }
{
    segments.push(make_block_value(block))?;
    Ok(())
}

/// Adds a block to the segments of an interpolated string, and then the text after it, which is at `pos`, unless that
/// is empty. Returns `AllocError` if memory runs out.
pub fn push_segment(
    segments: &mut Vec<Expr>,
    block: StmtBlock,
    text: RcStr,
    pos: Position,
) -> Result<(), AllocError>
    ensures { OnOk result (views segments.new.items ≡ added_text
        (with_node (views segments.old.items) (block_value (block_view block))) (rc_str_bytes text) pos) }
{
    push_block(segments, block)?;
    push_text(segments, text, pos)
}

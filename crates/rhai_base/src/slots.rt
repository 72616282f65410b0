//! What a definition and an export do to the slots of a frame.

ghost use Rattle.std.specs.Prelude.{◌≡◌, ◌≤◌, IfOk, OnErr, OnOk, length, option_map};
ghost use Rattle.std.specs.Int.NonZero.{non_zero_usize_get};
ghost use Rattle.std.specs.Rc.{rc_str_bytes};
ghost use Rattle.rhai_grammar.specs.Definitions.{define, export_at, is_in_block, is_reusable, reused};
ghost use Rattle.rhai_grammar.specs.Slots.{number};

use crate::lookup::slot_number;
use rhai_lower::Scope;
use std::alloc::AllocError;
use std::num::NonZeroUsize;
use std::rc::RcStr;

// Whether the slot with this number is in the block that begins after `block` slots.
fn is_in_block(slots: &Scope, block: usize, place: NonZeroUsize) -> bool
    requires { non_zero_usize_get place ≤ length slots.now }
    ensures { result ≡ is_in_block block slots.now (non_zero_usize_get place) }
{
    slots.len() - place.get() >= block
}

// Whether a definition may use the slot with this number again: it is in the block, and is not exported.
#[tactic(auto, using(crate::proofs::DefinitionLemmas::exported))]
fn is_reusable(slots: &Scope, block: usize, place: NonZeroUsize) -> bool
    requires { non_zero_usize_get place ≤ length slots.now }
    ensures { result ≡ is_reusable block slots.now (non_zero_usize_get place) }
{
    let index = slots.len() - place.get();
    is_in_block(slots, block, place) && slots.aliases(index).is_empty()
}

// The number of the slot that a definition of this name uses again; none if it gets a new slot.
#[tactic(auto, using(crate::proofs::DefinitionLemmas::reusing))]
fn reused(slots: &Scope, block: usize, name: &str) -> Option<NonZeroUsize>
    ensures { option_map non_zero_usize_get result ≡ reused block name.now slots.now }
{
    let place = slot_number(slots, name)?;
    if is_reusable(slots, block, place) {
        return Some(place);
    }
    None
}

/// Defines a variable or a constant in the block that begins after `block` slots: the latest slot of its name is used
/// again if it is in the block and is not exported; otherwise there is a new slot. The number of the slot that is used
/// again, counted from 1 at the latest of all; none if it is new.
///
/// The error is that there is no memory for it; then nothing changes.
#[tactic(auto, using(crate::proofs::DefinitionLemmas::defining))]
pub fn define(
    slots: &mut Scope,
    block: usize,
    name: &RcStr,
    constant: bool,
) -> Result<Option<NonZeroUsize>, AllocError>
    ensures number { IfOk result (λ number. option_map non_zero_usize_get number
        ≡ reused block (rc_str_bytes name.now) slots.old) }
    ensures ok { OnOk result (slots.new ≡ define block (rc_str_bytes name.now) constant slots.old) }
    ensures err { OnErr result (slots.new ≡ slots.old) }
{
    let Some(place) = reused(slots, block, name) else {
        slots.push(name.clone()?, constant)?;
        return Ok(None);
    };
    let index = slots.len() - place.get();
    slots.set_constant(index, constant);
    Ok(Some(place))
}

/// Exports the latest slot of the variable `name` under the name `alias`, if the slot is in the block that begins after
/// `block` slots; otherwise nothing changes. The error is that there is no memory for it; then nothing changes.
#[tactic(auto, using(crate::proofs::DefinitionLemmas::exporting))]
pub fn export(
    slots: &mut Scope,
    block: usize,
    name: &RcStr,
    alias: &RcStr,
) -> Result<(), AllocError>
    ensures ok { OnOk result
        (slots.new ≡ export_at block (rc_str_bytes alias.now) slots.old (number (rc_str_bytes name.now) slots.old)) }
    ensures err { OnErr result (slots.new ≡ slots.old) }
{
    let Some(place) = slot_number(slots, name) else {
        return Ok(());
    };
    if !is_in_block(slots, block, place) {
        return Ok(());
    }
    let index = slots.len() - place.get();
    slots.add_alias_by_index(index, alias.clone()?)
}

//! The names that a closure captures, each with the position of its first use.

ghost use Rattle.std.specs.Prelude.{◌≡◌, OnOk};
ghost use Rattle.std.specs.Rc.{rc_str_bytes};
ghost use Rattle.rhai_grammar.specs.Uses.{with_use};
ghost use Rattle.rhai_base.specs.Uses.{uses_of};

use rhai_lower::{NamedList, Position};
use std::alloc::AllocError;
use std::rc::RcStr;

/// Adds a name that is used at `pos`, if it is not among these. The time does not grow with them. The error is that
/// there is no memory for it.
#[tactic(auto, using(crate::proofs::UseLemmas::one_more, crate::proofs::UseLemmas::used_names))]
pub fn add_use(
    captured: &mut NamedList<(RcStr, Position)>,
    name: &RcStr,
    pos: Position,
) -> Result<(), AllocError>
    ensures { OnOk result (uses_of captured.new
        ≡ with_use (uses_of captured.old) (record { name = rc_str_bytes name.now; at = pos })) }
{
    if captured.has_name(name) {
        return Ok(());
    }
    captured.push((name.clone()?, pos))?;
    Ok(())
}

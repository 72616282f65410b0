//! `find_var`, `find_module` and the like: look-ups among slots and imports.

ghost use Rattle.std.specs.Prelude.{◌≡◌, ℕ, option_map, unwrap_or, map};
ghost use Rattle.std.specs.Int.NonZero.{non_zero_usize_get};
ghost use Rattle.std.specs.Rc.{rc_str_bytes};
ghost use Rattle.rhai_grammar.specs.Slots.{number, barrier_before, IsLatest};
ghost use Rattle.rhai_grammar.specs.Imports.{module_number};

use crate::state::ParseState;
use rhai_lower::{NamedList, Scope, find_latest};
use std::num::NonZeroUsize;
use std::rc::RcStr;

/// The name of a barrier's slot.
const BARRIER: &str = "$ BARRIER $";

/// Looks up the variable `name`, from the latest slot to the oldest. The first result is the index of its latest slot,
/// counted from 1 at the latest of all slots, or 0 if no slot has the name. The second is whether the search met a
/// barrier before it ended, which is a slot named `$ BARRIER $`. A barrier does not stop the search, and is never found
/// itself. Does not allocate.
pub fn find_slot(slots: &Scope, name: &str) -> (usize, bool)
    ensures value { result ≡ (unwrap_or (number name.now slots.now) 0, barrier_before name.now slots.now) }
{
    let len = slots.len();
    let mut barrier = false;
    for i in (0..len).rev() {
        let slot = slots.name(i).as_str();
        if slot == BARRIER {
            barrier = true;
        } else if slot == name {
            return (len - i, barrier);
        }
    }
    (0, barrier)
}

/// The index of the latest slot of the variable `name`, counted from 1 at the latest slot of all; none if no slot has
/// the name. A slot named `$ BARRIER $` is never found. It does not allocate. Where there are many slots, the time does
/// not grow with them.
#[tactic(auto, using(crate::proofs::FindLemmas::places))]
pub fn slot_number(slots: &Scope, name: &str) -> Option<NonZeroUsize>
    ensures { option_map non_zero_usize_get result ≡ number name.now slots.now }
{
    let index = slots.latest(name)?;
    if name == BARRIER {
        return None;
    }
    NonZeroUsize::new(slots.len() - index)
}

/// The number of the latest import of this name, counted from 1 at the latest import of all; none if no import has the
/// name. It does not allocate. Where one was added to many imports, the time does not grow with them.
#[tactic(auto, using(crate::proofs::ImportLemmas::imports))]
pub(crate) fn import_place(imports: &NamedList<RcStr>, name: &str) -> Option<NonZeroUsize>
    ensures { option_map non_zero_usize_get result ≡ module_number name.now (map rc_str_bytes imports.now) }
{
    let index = imports.latest(name)?;
    NonZeroUsize::new(imports.len() - index)
}

/// The number of the latest import of this name, as [`import_place`] gives it, by a walk from the latest import. Does
/// not allocate.
#[tactic(auto, using(crate::proofs::ImportLemmas::imports))]
pub(crate) fn find_import(imports: &[RcStr], name: &str) -> Option<NonZeroUsize>
    ensures { option_map non_zero_usize_get result ≡ module_number name.now (map rc_str_bytes imports.now) }
{
    let index = find_latest(imports, name)?;
    NonZeroUsize::new(imports.len() - index)
}

impl<'a, 't, 'f> ParseState<'a, 't, 'f> {
    /// Looks up the variable `name` in the state's slots, as [`find_slot`] does: the index of its latest slot, counted
    /// from 1 at the latest of all slots, or 0 if no slot has the name; and whether the search met a barrier. Does not
    /// allocate.
    pub fn find_var(&self, name: &str) -> (usize, bool)
        ensures value { result ≡ (
          unwrap_or (number name.now self.now.stack) 0,
          barrier_before name.now self.now.stack,
        ) }
        ensures latest { IsLatest name.now self.now.stack (number name.now self.now.stack) }
    {
        find_slot(&self.stack, name)
    }

    /// The index of the latest live import of the module `name`, counted from 1 at the latest of all imports; `None` if
    /// there is none. Does not allocate.
    pub fn find_module(&self, name: &str) -> Option<NonZeroUsize>
        ensures { option_map (λ place. place.value) result
            ≡ module_number name.now (map rc_str_bytes self.now.imports.items) }
    {
        find_import(&self.imports, name)
    }
}

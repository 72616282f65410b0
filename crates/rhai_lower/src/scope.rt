//! `Scope`: the slots of variables.

ghost use Rattle.std.specs.Prelude.{◌≡◌, ◌<◌, ◌≤◌, ◌↔◌, [], IsTrue, OnErr, OnOk, length, map, take};
ghost use Rattle.std.specs.Rc.{rc_str_bytes};
ghost use Rattle.rhai_lower.specs.Slots.{slot_at, with_slot, with_constant, with_alias, is_declared, latest};

use crate::named_list::{HasName, NamedList};
use std::alloc::{AllocError, Global};
use std::marker::Model;
use std::rc::RcStr;

/// A variable's slot.
#[derive(Drop, Debug)]
struct Slot {
    name: RcStr,
    constant: bool,
    // The names under which it is exported.
    aliases: Vec<RcStr>,
}

impl HasName for Slot {
    ghost text = { λ s. rc_str_bytes s.name };

    fn name(&self) -> &RcStr {
        &self.name
    }
}

/// Slots of variables, from the oldest to the latest. An `index` counts from 0 at the oldest slot; a caller has to
/// prove that it is less than `len()`.
#[derive(Drop, Debug)]
pub struct Scope {
    slots: NamedList<Slot>,
}

impl Model for Scope {
    ghost use Rattle.std.specs.Prelude.{List, map};
    ghost use Rattle.rhai_lower.specs.Slots.{SlotValue};
    ghost use Rattle.rhai_lower.specs.SlotView.{slot_of};

    ghost Value = { List SlotValue };

    ghost view = { λ s. map slot_of s.slots };
}

impl Scope {
    /// A scope without slots. Does not allocate.
    pub fn new(alloc: Global) -> Self
        ensures { result ≡ [] }
    {
        Scope {
            slots: NamedList::new(alloc),
        }
    }

    /// The number of slots.
    pub fn len(&self) -> usize
        ensures { result ≡ length self.now }
    {
        self.slots.len()
    }

    /// Whether there is no slot.
    pub fn is_empty(&self) -> bool
        ensures { IsTrue result ↔ (self.now ≡ []) }
    {
        self.slots.is_empty()
    }

    /// Adds a slot for a variable or a constant, which is not exported yet. Returns `AllocError` if memory runs out;
    /// then nothing changes.
    pub fn push(&mut self, name: RcStr, constant: bool) -> Result<(), AllocError>
        ensures ok { OnOk result (self.new ≡ with_slot self.old (rc_str_bytes name) constant) }
        ensures err { OnErr result (self.new ≡ self.old) }
    {
        let slots = &self.slots;
        let aliases = Vec::new(*slots.items.allocator());
        self.slots.push(Slot {
            name,
            constant,
            aliases,
        })
    }

    /// The name of the slot at `index`.
    pub fn name(&self, index: usize) -> &RcStr
        requires { index < length self.now }
        ensures { rc_str_bytes result.now ≡ (slot_at self.now index).name }
    {
        &self.slots.items()[index].name
    }

    /// Whether the slot at `index` is constant.
    pub fn is_constant(&self, index: usize) -> bool
        requires { index < length self.now }
        ensures { result ≡ (slot_at self.now index).constant }
    {
        self.slots.items()[index].constant
    }

    /// The names under which the slot at `index` is exported, in the order in which they were added.
    pub fn aliases(&self, index: usize) -> &[RcStr]
        requires { index < length self.now }
        ensures { map rc_str_bytes result.now ≡ (slot_at self.now index).aliases }
    {
        self.slots.items()[index].aliases.as_slice()
    }

    /// Makes the slot at `index` constant or variable. Does not allocate.
    pub fn set_constant(&mut self, index: usize, constant: bool)
        requires { index < length self.old }
        ensures { self.new ≡ with_constant self.old index constant }
    {
        let slots = &mut self.slots;
        slots.items[index].constant = constant;
    }

    /// Exports the slot at `index` under one more name. Returns `AllocError` if memory runs out; then nothing changes.
    pub fn add_alias_by_index(&mut self, index: usize, alias: RcStr) -> Result<(), AllocError>
        requires { index < length self.old }
        ensures ok { OnOk result (self.new ≡ with_alias self.old index (rc_str_bytes alias)) }
        ensures err { OnErr result (self.new ≡ self.old) }
    {
        let slots = &mut self.slots;
        slots.items[index].aliases.push(alias)?;
        Ok(())
    }

    /// Drops all slots except the oldest `len`, which is at most the number of slots. Does not allocate.
    pub fn rewind(&mut self, len: usize)
        requires { len ≤ length self.old }
        ensures { self.new ≡ take len self.old }
    {
        self.slots.rewind(len);
    }

    /// The index of the latest slot of this name; none if no slot has the name. Does not allocate. Where there are many
    /// slots, the time does not grow with them.
    pub fn latest(&self, name: &str) -> Option<usize>
        ensures { result ≡ latest name.now self.now }
    {
        self.slots.latest(name)
    }

    /// Whether a slot has this name.
    pub fn contains(&self, name: &str) -> bool
        ensures { result ≡ is_declared name.now self.now }
    {
        self.latest(name).is_some()
    }
}

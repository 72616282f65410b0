//! `Interner`: names and values of strings, of which equal ones mostly share one text.

ghost use Rattle.std.specs.Prelude.{◌≡◌, IfOk};
ghost use Rattle.std.specs.Rc.{rc_str_bytes};

use std::alloc::{AllocError, Global};
use std::hash::{FoldHasher, Hasher};
use std::rc::RcStr;

// How many slots there are at first.
const SLOTS: usize = 8;

/// The names and the values of strings of a text that were met last. The bytes of each choose its slot, where a later
/// one takes its place. The more names were made, the more slots there are.
#[derive(Drop)]
pub struct Interner {
    // None, or a power of two.
    slots: Vec<Option<RcStr>>,
    // How many were made since there are so many slots.
    made: usize,
}

impl Interner {
    /// No names. Does not allocate.
    pub fn new(alloc: Global) -> Self {
        Interner {
            slots: Vec::new(alloc),
            made: 0,
        }
    }

    // The slot of a name with this text.
    #[inline(always)]
    fn slot_of(&self, text: &str) -> usize {
        let mut hasher = FoldHasher::default();
        hasher.write(text.as_bytes());
        hasher.finish() as usize & self.slots.len().wrapping_sub(1)
    }

    // More slots, all of them empty.
    #[inline(never)]
    fn grow(&mut self, alloc: Global) -> Result<(), AllocError> {
        let count = self.slots.len().saturating_mul(2).max(SLOTS);
        let mut slots = Vec::new(alloc);
        slots.resize_with(count, || None)?;
        self.slots = slots;
        self.made = 0;
        Ok(())
    }

    // A name that is not in its slot.
    #[inline(never)]
    fn new_name(&mut self, alloc: Global, text: &str, slot: usize) -> Result<RcStr, AllocError>
        ensures { IfOk result (λ t. rc_str_bytes t ≡ text.now) }
    {
        let name = RcStr::from_str(alloc, text)?;
        if self.made / 2 < self.slots.len() {
            self.made += 1;
            if let Some(place) = self.slots.get_mut(slot) {
                *place = Some(name.clone()?);
            }
        } else {
            self.grow(alloc)?;
        }
        Ok(name)
    }

    /// The name with this text. Returns `AllocError` if memory runs out.
    #[inline(always)]
    pub fn name(&mut self, alloc: Global, text: &str) -> Result<RcStr, AllocError>
        ensures { IfOk result (λ t. rc_str_bytes t ≡ text.now) }
    {
        let slot = self.slot_of(text);
        if let Some(Some(name)) = self.slots.get(slot) {
            if name.as_str() == text {
                return name.clone();
            }
        }
        self.new_name(alloc, text, slot)
    }
}

//! `Held`: what a host holds of the library's memory. The one place that makes raw pointers, and reads them.

ghost use Rattle.std.specs.Prelude.{◌≡◌, MatchOption, None, Option, Some};
ghost use Rattle.rhai_c.specs.Handles.{held};
ghost use Rattle.rhai_c.specs.contracts.kept.Kept as kept;
ghost use Rattle.rhai_c.specs.declared.kept.Kept as declared;

use crate::kept::Kept;
use crate::parts::Parts;
use std::alloc::Global;
use std::marker::Model;
use std::mem::replace;
use std::ptr::null_mut;

/// What a host holds: a pointer to what is kept for it, or null.
#[repr(C)]
pub struct Held {
    // In C a pointer to nothing that is known: its type there would be one that owns memory.
    at: *mut u8,
    ghost value: { Option declared.Kept },
}

impl Model for Held {
    ghost also_owns = { λ h. held kept.the_row h.at h.value };
}

impl Held {
    /// Null.
    pub fn nothing() -> Held
        ensures { result.value ≡ None }
    {
        Held { at: null_mut() }
    }

    fn of_parts(parts: Parts<Kept, Global>) -> Held
        ensures { result.value ≡ Some parts.value }
    {
        let Parts { ptr, alloc: _ } = parts;
        Held { at: ptr as *mut u8 }
    }

    fn into_parts(self, alloc: Global) -> Option<Parts<Kept, Global>>
        ensures { MatchOption result (self.value ≡ None) (λ p. self.value ≡ Some p.value) }
    {
        let Held { at } = self;
        if at == null_mut() {
            return None;
        }
        let ptr = at as *mut Kept;
        Some(Parts { ptr, alloc })
    }

    fn into_box(self, alloc: Global) -> Option<Box<Kept>>
        ensures { MatchOption result (self.value ≡ None) (λ b. self.value ≡ Some b.value) }
    {
        Some(self.into_parts(alloc)?.into_box())
    }

    /// Takes what is held, if anything is, and leaves nothing.
    pub fn take(&mut self, alloc: Global) -> Option<Box<Kept>>
        ensures left { self.new.value ≡ None }
        ensures taken { MatchOption result (self.old.value ≡ None) (λ b. self.old.value ≡ Some b.value) }
    {
        replace(self, Held::nothing()).into_box(alloc)
    }

    /// Holds this. What was held is dropped.
    pub fn put(&mut self, alloc: Global, kept: Box<Kept>)
        ensures { self.new.value ≡ Some kept.value }
    {
        let held = Held::of_parts(Parts::of(kept));
        drop(replace(self, held).into_box(alloc));
    }
}

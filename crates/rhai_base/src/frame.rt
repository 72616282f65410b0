//! `Frame`: what is live in a block, and which tokens its expressions may contain.

ghost use Rattle.std.specs.Prelude.{◌≡◌, ◌++◌, IfOk, OnOk, length, map, option_map};
ghost use Rattle.std.specs.Int.NonZero.{non_zero_usize_get};
ghost use Rattle.std.specs.Rc.{rc_str_bytes};
ghost use Rattle.rhai_grammar.specs.Contexts.{in_block, nothing_live};
ghost use Rattle.rhai_grammar.specs.Definitions.{declared, defined, exported, imported, reused};
ghost use Rattle.rhai_grammar.specs.Imports.{module_number};
ghost use Rattle.rhai_grammar.specs.Slots.{number};
ghost use Rattle.rhai_grammar.specs.Targets.{is_constant_at};
ghost use Rattle.rhai_grammar.specs.declared.filter.ExprFilter.TheVariants.{All, AllButPipe};
ghost use Rattle.rhai_base.specs.Frames.{SameSurroundings};

use crate::known::Known;
use crate::lookup::{import_place, slot_number};
use crate::slots::{define, export};
use rhai_grammar::ExprFilter;
use rhai_lower::{NamedList, Scope};
use std::alloc::{AllocError, Global};
use std::marker::Model;
use std::num::NonZeroUsize;
use std::rc::RcStr;

mod names;

/// What is live in a block: the slots and the imports of the frame around it, and after them those of the block. A
/// slot's number counts from 1 at the latest slot of all, and so does an import's. A frame also knows which tokens the
/// expressions in it may contain: in a case of a `switch`, and in all blocks inside it, that is every token but `|`.
/// And it knows what is known around the script.
#[derive(Drop)]
pub struct Frame<'p> {
    // The frame of the block around this one.
    outer: Option<&'p Frame<'p>>,
    // The number of slots of all frames around this one.
    below: usize,
    // The slots that this block defines; in the outermost frame all slots.
    stack: Scope,
    // The number of slots of `stack` that lie before the block: 0 in an inner frame.
    block: usize,
    // The number of imports of all frames around this one.
    above: usize,
    // The imports of this block; in the outermost frame all imports.
    imports: NamedList<RcStr>,
    // Which tokens the expressions in this block may contain.
    filter: ExprFilter,
    // What is known around the script, or the function.
    known: &'p Known<'p>,
    // How many functions and closures have begun around this frame.
    begun: usize,
}

impl<'p> Model for Frame<'p> {
    ghost use Rattle.std.specs.Prelude.{◌++◌, ◌+◌, length, map};
    ghost use Rattle.std.specs.Rc.{rc_str_bytes};
    ghost use Rattle.rhai_base.specs.Frames.{FrameValue, IsCounted, outer_depth, outer_imports, outer_slots};

    ghost Value = { FrameValue };

    ghost view = { λ f. record {
      live = record {
        slots = outer_slots f.outer ++ f.stack;
        block = length (outer_slots f.outer) + f.block;
        imports = outer_imports f.outer ++ map rc_str_bytes f.imports;
      };
      depth = outer_depth f.outer;
      filter = f.filter;
      known = f.known.now;
      begun = f.begun;
    } };

    ghost invariant = { λ f. IsCounted f.outer f.below f.stack f.above (map rc_str_bytes f.imports) };

    ghost size = { λ v. v.depth };

    ghost use Rattle.std.proofs.Common.{arith};

    ghost size_decreases = { λ a h. Prim.grind (arith) };
}

impl<'p> Frame<'p> {
    /// The outermost frame, of a block that begins after the oldest `block` slots of `stack` and after all of
    /// `imports`. Its expressions may contain the tokens that `filter` lets pass. `known` is what is known around the
    /// script, and `begun` functions and closures have begun around it. Does not allocate.
    pub fn new(
        stack: Scope,
        block: usize,
        imports: Vec<RcStr>,
        filter: ExprFilter,
        known: &'p Known<'_>,
        begun: usize,
    ) -> Frame<'p>
        ensures { result ≡ record {
          live = record { slots = stack; block = block; imports = map rc_str_bytes imports.items };
          depth = 0;
          filter = filter;
          known = known.now;
          begun = begun;
        } }
    {
        let below = 0;
        let above = 0;
        Frame {
            outer: None,
            below,
            stack,
            block,
            above,
            imports: NamedList::from_items(imports),
            filter,
            known,
            begun,
        }
    }

    /// The frame of a block inside this one, which begins after all that is live here. Its expressions may contain the
    /// same tokens as those of this one. Does not allocate.
    pub fn inner(&self, alloc: Global) -> Frame<'_>
        ensures live { result.live ≡ in_block self.now.live }
        ensures filter { result.filter ≡ self.now.filter }
        ensures known { result.known ≡ self.now.known }
        ensures begun { result.begun ≡ self.now.begun }
    {
        self.inner_with(alloc, self.filter)
    }

    /// The frame of a case of a `switch`, in which the same is live as here. Its expressions, and those of the blocks
    /// inside it, may contain every token except `|`. Does not allocate.
    pub fn in_case(&self, alloc: Global) -> Frame<'_>
        ensures live { result.live ≡ in_block self.now.live }
        ensures filter { result.filter ≡ AllButPipe }
        ensures known { result.known ≡ self.now.known }
        ensures begun { result.begun ≡ self.now.begun }
    {
        self.inner_with(alloc, ExprFilter::AllButPipe)
    }

    // The frame of a block inside this one, whose expressions may contain these tokens.
    fn inner_with(&self, alloc: Global, filter: ExprFilter) -> Frame<'_>
        ensures live { result.live ≡ in_block self.now.live }
        ensures filter { result.filter ≡ filter }
        ensures known { result.known ≡ self.now.known }
        ensures begun { result.begun ≡ self.now.begun }
    {
        Frame {
            outer: Some(self),
            below: self.len(),
            stack: Scope::new(alloc),
            block: 0,
            above: self.import_count(),
            imports: NamedList::new(alloc),
            filter,
            known: self.known,
            begun: self.begun,
        }
    }

    /// The frame of a function or closure, in which nothing is live. `known` is what it knows, as `known_inside` of the
    /// frame around it gives it, and `begun` functions and closures have begun around it, itself included. Its
    /// expressions may contain every token. Does not allocate.
    pub fn of_function(alloc: Global, known: &'p Known<'_>, begun: usize) -> Frame<'p>
        ensures { result ≡ record {
          live = nothing_live;
          depth = 0;
          filter = All;
          known = known.now;
          begun = begun;
        } }
    {
        let filter = ExprFilter::All;
        Frame::new(Scope::new(alloc), 0, Vec::new(alloc), filter, known, begun)
    }

    /// What a function or closure knows that stands in this frame: what is known here, and the modules that are
    /// imported here. The time grows with the blocks that import, not with the imports. The error is that there is no
    /// memory for it.
    pub fn known_inside<'f>(&'f self, alloc: Global) -> Result<Known<'f>, AllocError>
        ensures { IfOk result (λ known. known
            ≡ record self.now.known { imports = self.now.known.imports ++ self.now.live.imports }) }
    {
        let mut known = self.known.try_clone(alloc)?;
        self.push_imports(&mut known)?;
        Ok(known)
    }

    // Adds the live imports to what is known. The error is that there is no memory for them.
    fn push_imports<'f>(&'f self, known: &mut Known<'f>) -> Result<(), AllocError>
        ensures { OnOk result (known.new
            ≡ record known.old { imports = known.old.imports ++ self.now.live.imports }) }
    {
        if let Some(outer) = self.outer {
            outer.push_imports(known)?;
        }
        known.push_imports(&self.imports)
    }

    /// How many functions and closures have begun around this frame. Does not allocate.
    pub fn begun(&self) -> usize
        ensures { result ≡ self.now.begun }
    {
        self.begun
    }

    /// Which tokens the expressions in this block may contain. Does not allocate.
    pub fn filter(&self) -> ExprFilter
        ensures { result ≡ self.now.filter }
    {
        self.filter
    }

    /// The slots and the imports of the outermost frame; a caller has to prove that there is no frame around it. Does
    /// not allocate.
    pub fn into_parts(self) -> (Scope, Vec<RcStr>)
        requires { self.depth ≡ 0 }
        ensures slots { result.0 ≡ self.entry.live.slots }
        ensures imports { map rc_str_bytes result.1.items ≡ self.entry.live.imports }
    {
        (self.stack, self.imports.into_items())
    }

    /// The number of the latest slot of the variable `name`, counted from 1 at the latest slot of all; none if no slot
    /// has the name. Does not allocate.
    // It is apart, since what reads a name is faster so.
    #[inline(never)]
    pub fn slot_number(&self, name: &str) -> Option<NonZeroUsize>
        ensures { option_map non_zero_usize_get result ≡ number name.now self.now.live.slots }
    {
        let len = self.len();
        let mut frame = self;
        loop {
            if let Some(place) = slot_number(&frame.stack, name) {
                return NonZeroUsize::new(len - frame.len() + place.get());
            }
            let Some(outer) = frame.outer else {
                return None;
            };
            frame = outer;
        }
    }

    /// Whether the slot with this number is constant, where `place` counts from 1 at the latest slot of all. A number
    /// past the oldest slot stands for the oldest slot; without a number, or without slots, the answer is `false`. Does
    /// not allocate.
    pub fn is_constant(&self, place: Option<NonZeroUsize>) -> bool
        ensures { result ≡ is_constant_at self.now.live.slots (option_map non_zero_usize_get place) }
    {
        let Some(place) = place else {
            return false;
        };
        let mut frame = self;
        let index = self.len().saturating_sub(place.get());
        while index < frame.below {
            // No slot is below the outermost frame.
            let Some(outer) = frame.outer else {
                return false;
            };
            frame = outer;
        }
        let index = index - frame.below;
        index < frame.stack.len() && frame.stack.is_constant(index)
    }

    /// Defines a variable of this name, or a constant: the latest slot of the name is used again if it is in the block
    /// and is not exported; otherwise there is a new slot. The result is the number of the slot that is used again,
    /// counted from 1 at the latest slot of all; none if the slot is new.
    ///
    /// The error is that there is no memory for the slot.
    pub fn define(
        &mut self,
        name: &RcStr,
        constant: bool,
    ) -> Result<Option<NonZeroUsize>, AllocError>
        ensures number { IfOk result (λ number. option_map non_zero_usize_get number
            ≡ reused self.old.live.block (rc_str_bytes name.now) self.old.live.slots) }
        ensures ok { OnOk result (self.new.live ≡ defined (rc_str_bytes name.now) constant self.old.live) }
        ensures place { SameSurroundings self.old self.new }
    {
        if self.len() == usize::MAX {
            return Err(AllocError);
        }
        define(&mut self.stack, self.block, name, constant)
    }

    /// Adds a slot for a variable of this name, whether there is one of the name already or not: the variables of `for`
    /// and of `catch` get one each. The error is that there is no memory for it.
    pub fn declare(&mut self, name: &RcStr) -> Result<(), AllocError>
        ensures ok { OnOk result (self.new.live ≡ declared (rc_str_bytes name.now) self.old.live) }
        ensures place { SameSurroundings self.old self.new }
    {
        if self.len() == usize::MAX {
            return Err(AllocError);
        }
        self.stack.push(name.clone()?, false)
    }

    /// Exports the variable `name` under the name `alias`: its latest slot has that as one more name, if the slot is in
    /// the block. A slot before the block, or none, changes nothing.
    ///
    /// The error is that there is no memory for it.
    pub fn export(&mut self, name: &RcStr, alias: &RcStr) -> Result<(), AllocError>
        ensures ok { OnOk result
            (self.new.live ≡ exported (rc_str_bytes name.now) (rc_str_bytes alias.now) self.old.live) }
        ensures place { SameSurroundings self.old self.new }
    {
        export(&mut self.stack, self.block, name, alias)
    }

    /// Adds an import under this name, or under the empty name if there is none. The error is that there is no memory
    /// for it.
    pub fn import(&mut self, alloc: Global, name: &Option<RcStr>) -> Result<(), AllocError>
        ensures ok { OnOk result (self.new.live ≡ imported (option_map rc_str_bytes name.now) self.old.live) }
        ensures place { SameSurroundings self.old self.new }
    {
        if self.import_count() == usize::MAX {
            return Err(AllocError);
        }
        let name = match name {
            Some(name) => name.clone()?,
            None => RcStr::from_str(alloc, "")?,
        };
        self.imports.push(name)?;
        Ok(())
    }

    /// The number of the latest import of the module `name`, counted from 1 at the latest import of all; none if there
    /// is no import of the name. Does not allocate.
    pub fn find_module(&self, name: &str) -> Option<NonZeroUsize>
        ensures { option_map non_zero_usize_get result ≡ module_number name.now self.now.live.imports }
    {
        let count = self.import_count();
        let mut frame = self;
        loop {
            if let Some(place) = import_place(&frame.imports, name) {
                return NonZeroUsize::new(count - frame.import_count() + place.get());
            }
            let Some(outer) = frame.outer else {
                return None;
            };
            frame = outer;
        }
    }

    // The number of live slots.
    fn len(&self) -> usize
        ensures { result ≡ length self.now.live.slots }
    {
        self.below + self.stack.len()
    }

    // The number of live imports.
    fn import_count(&self) -> usize
        ensures { result ≡ length self.now.live.imports }
    {
        self.above + self.imports.len()
    }
}

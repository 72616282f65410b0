//! What a name may do in a frame. It may be used, begin a path, be captured, or be defined.

ghost use Rattle.std.specs.Prelude.{◌≡◌, ◌&&◌, ◌||◌, IfErr, OnOk, codes, false, not, true};
ghost use Rattle.std.specs.Option.{is_some};
ghost use Rattle.std.specs.Rc.{rc_str_bytes};
ghost use Rattle.rhai_grammar.specs.Causes.{MemoryIsNowhere, VariableExists, is_for_memory, refusal, refusal_of};
ghost use Rattle.rhai_grammar.specs.Definitions.{is_none};
ghost use Rattle.rhai_grammar.specs.Imports.{is_among, module_number};
ghost use Rattle.rhai_grammar.specs.Libraries.{is_function};
ghost use Rattle.rhai_grammar.specs.Slots.{number};
ghost use Rattle.rhai_lower.specs.Slots.{is_declared};
ghost use Rattle.rhai_lower.specs.Texts.{same_text};
ghost use Rattle.rhai_base.specs.Libraries.{library_of};

use crate::frame::Frame;
use crate::library::Library;
use rhai_grammar::{ParseError, ParseErrorType, ParseResult};
use rhai_lower::Position;
use std::rc::RcStr;

impl<'p> Frame<'p> {
    /// Whether the variable `name` may be used: under strict variables, which `strict` says, there is a slot of the
    /// name, a function of the library has it, or the caller gives the script a variable of that name. Does not
    /// allocate.
    pub fn may_use(&self, strict: bool, library: &Library, name: &str) -> bool
        ensures { result ≡ (not strict || (is_some (number name.now self.now.live.slots)
            || (is_function (library_of library.now) name.now || is_declared name.now self.now.known.variables))) }
    {
        !strict
            || self.slot_number(name).is_some()
            || library.is_function(name)
            || self.known.declares(name)
    }

    /// Whether the variable `name`, used in a closure or not, as `closure` says, is one that the closure captures: no
    /// slot has the name, and no function of the library. Does not allocate.
    pub fn is_captured(&self, closure: bool, library: &Library, name: &str) -> bool
        ensures { result ≡ (closure && not (is_some (number name.now self.now.live.slots)
            || is_function (library_of library.now) name.now)) }
    {
        closure && !(self.slot_number(name).is_some() || library.is_function(name))
    }

    /// Whether a path may begin with `name`: under strict variables, which `strict` says, it is the name of an import,
    /// here or around the script, `global`, or the name of one of the engine's modules. Does not allocate.
    pub fn may_enter(&self, strict: bool, name: &str) -> bool
        ensures { result ≡ (not strict || (is_some (module_number name.now self.now.live.imports)
            || (is_among name.now self.now.known.imports
            || (same_text name.now (codes "global") || is_among name.now self.now.known.modules)))) }
    {
        !strict
            || self.find_module(name).is_some()
            || self.known.has_import(name)
            || name == "global"
            || self.known.has_module(name)
    }

    /// Refuses a definition of a name that a slot of this frame or of one around it has, unless shadowing is allowed.
    ///
    /// The error is `VariableExists` at `pos`, or `OutOfMemory`.
    pub fn test_name(&self, shadowing: bool, name: &RcStr, pos: Position) -> ParseResult<()>
        ensures passes { OnOk result
            ((shadowing || is_none (number (rc_str_bytes name.now) self.now.live.slots)) ≡ true) }
        ensures refused { IfErr result (λ e. is_for_memory e ≡ false
            → ((shadowing || is_none (number (rc_str_bytes name.now) self.now.live.slots)) ≡ false)
            × (refusal_of e ≡ refusal (VariableExists (rc_str_bytes name.now)) pos)) }
        ensures nowhere { IfErr result MemoryIsNowhere }
    {
        if shadowing {
            return Ok(());
        }
        match self.slot_number(name) {
            None => Ok(()),
            Some(_) => Err(ParseError(ParseErrorType::VariableExists(name.clone()?), pos)),
        }
    }
}

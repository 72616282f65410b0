//! `Library`: a script's functions with an index of their names.

ghost use Rattle.std.specs.Prelude.{◌≡◌, ◌+◌, IfErr, IfOk, OnErr, OnOk, false, length, nat_lt, true};
ghost use Rattle.rhai_grammar.specs.Keys.{has_key, key_of, keys_of};
ghost use Rattle.rhai_grammar.specs.Libraries.{closure_count, is_function, keys_in, with_ended};
ghost use Rattle.rhai_base.specs.Index.{Agrees};
ghost use Rattle.rhai_base.specs.Libraries.{Grows, ended, library_of};
ghost use Rattle.rhai_base.specs.Settings.{too_many_functions};

use crate::fn_lib::{FnLib, has_function};
use crate::library_index::LibraryIndex;
use rhai_grammar::{FnKey, ParseError, ParseErrorType, ParseResult};
use rhai_lower::{Position, ScriptFuncDef};
use std::alloc::AllocError;
use std::marker::Model;
use std::rc::Rc;

/// The functions and closures of a script that have ended, in this order. Whether there is one of a name is found in a
/// time that does not grow with their number.
#[derive(Drop)]
pub struct Library {
    // The functions by their keys.
    functions: FnLib,
    // The index of their names.
    index: LibraryIndex,
}

impl Model for Library {
    ghost use Rattle.std.specs.Prelude.{List};
    ghost use Rattle.std.specs.Coded.{codes};
    ghost use Rattle.std.specs.declared.alloc.Global.{Global};
    ghost use Rattle.std.specs.declared.rc.Rc.{Rc};
    ghost use Rattle.rhai_lower.specs.contracts.ast.ScriptFuncDef as function;
    ghost use Rattle.rhai_lower.specs.declared.ast.ScriptFuncDef.{ScriptFuncDef};
    ghost use Rattle.rhai_grammar.specs.Keys.{keys_of};
    ghost use Rattle.rhai_grammar.specs.declared.key.FnKey.{FnKey};
    ghost use Rattle.rhai_base.specs.Index.{Agrees};

    ghost Value = { List (FnKey × Rc ScriptFuncDef Global) };

    ghost coded = { Prim.hlevel (codes, function.the_row.coded) };

    ghost view = { λ l. l.functions.entries };

    ghost invariant = { λ l. Agrees l.index (keys_of l.functions.entries) };
}

impl Library {
    /// These functions, of which this is the index.
    pub fn new(functions: FnLib, index: LibraryIndex) -> Self
        requires { Agrees index (keys_of functions.entries) }
        ensures { result ≡ functions.entries }
    {
        Library { functions, index }
    }

    /// The functions without the index.
    pub fn into_functions(self) -> FnLib
        ensures { result.entries ≡ self }
    {
        self.functions
    }

    /// Whether a function or closure has this name. Does not allocate. The time does not grow with the library.
    #[tactic(auto, using(crate::proofs::LibraryLemmas::same_keys))]
    pub fn is_function(&self, name: &str) -> bool
        ensures { result ≡ is_function (library_of self.now) name.now }
    {
        self.index.contains(name)
    }

    /// Whether a function has this key. Does not allocate.
    #[tactic(auto, using(crate::proofs::LibraryLemmas::same_keys))]
    pub fn has(&self, key: &FnKey) -> bool
        ensures { result ≡ has_key (key_of key.now) (keys_in (library_of self.now)) }
    {
        has_function(&self.functions, key)
    }

    /// The number of functions and closures. Does not allocate, and takes constant time.
    #[tactic(auto, using(crate::proofs::LibraryLemmas::as_many))]
    pub fn len(&self) -> usize
        ensures { result ≡ length (library_of self.now) }
    {
        self.functions.len()
    }

    /// Refuses one more function where there are `limit` already, with those that have begun around it. The result is
    /// how many have begun around what is in it. The error is `TooManyFunctions` at `pos`. Does not allocate, and takes
    /// constant time.
    pub fn test_room(&self, limit: usize, begun: usize, pos: Position) -> ParseResult<usize>
        ensures passes { IfOk result (λ inside. (nat_lt (length (library_of self.now) + begun) limit ≡ true)
            × (inside ≡ begun + 1)) }
        ensures refused { IfErr result (λ e. (nat_lt (length (library_of self.now) + begun) limit ≡ false)
            × (e ≡ too_many_functions pos)) }
    {
        let ended = self.len();
        if ended < limit && begun < limit - ended {
            return Ok(begun + 1);
        }
        Err(ParseError(ParseErrorType::TooManyFunctions, pos))
    }

    /// The number of closures. Does not allocate, and takes constant time.
    #[tactic(auto, using(crate::proofs::LibraryLemmas::same_keys))]
    pub fn closure_count(&self) -> usize
        ensures { result ≡ closure_count (library_of self.now) }
    {
        self.index.closure_count()
    }

    /// Appends a function. The caller has to prove that no function has its key yet. Returns `AllocError` if memory
    /// runs out; then nothing changes.
    #[tactic(auto, using(crate::proofs::LibraryLemmas::added))]
    pub fn add(&mut self, key: FnKey, function: Rc<ScriptFuncDef>) -> Result<(), AllocError>
        requires { has_key (key_of key) (keys_in (library_of self.old)) ≡ false }
        ensures ok { OnOk result (library_of self.new ≡ with_ended (library_of self.old) (ended key function)) }
        ensures err { OnErr result (self.new ≡ self.old) }
        ensures grows { Grows (library_of self.old) (library_of self.new) }
    {
        self.index.add_function(&mut self.functions, key, function)
    }
}

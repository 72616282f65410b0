//! `LibraryIndex`: an index of the names in a library. The time of a look-up does not grow with the library.

ghost use Rattle.std.specs.Prelude.{◌≡◌, ◌+◌, ◌||◌, ◌++◌, ◌∷◌, [], false, if◌then◌else◌, OnOk, OnErr, IfOk};
ghost use Rattle.rhai_lower.specs.Texts.{Text, same_text};
ghost use Rattle.rhai_grammar.specs.Keys.{key_of, keys_of, has_key};
ghost use Rattle.rhai_base.specs.Index.{listed, is_listed, counted, Agrees};

use crate::fn_lib::{FnLib, is_closure_key};
use indexmap::IndexSet;
use rhai_grammar::FnKey;
use rhai_lower::ScriptFuncDef;
use std::alloc::{AllocError, Global};
use std::rc::{Rc, RcStr};

/// The names of a library's functions, and the number of its closures.
#[derive(Drop)]
pub struct LibraryIndex {
    names: IndexSet<RcStr>,
    closures: usize,
}

impl LibraryIndex {
    /// The index of a library. Returns `AllocError` if memory runs out.
    pub fn new(alloc: Global, lib: &FnLib) -> Result<Self, AllocError>
        ensures { IfOk result (λ index. Agrees index (keys_of lib.now.entries)) }
    {
        let mut names = IndexSet::new(alloc);
        let mut closures = 0;
        for key in lib.keys() {
            add_name(&mut names, key)?;
            if is_closure_key(key) {
                closures += 1;
            }
        }
        Ok(LibraryIndex { names, closures })
    }

    /// Whether a function or closure has this name. Does not allocate. The time does not grow with the library.
    pub fn contains(&self, name: &str) -> bool
        ensures { result ≡ is_listed name.now self.now }
    {
        self.names.contains(name)
    }

    /// The number of closures. Does not allocate, and takes constant time.
    pub fn closure_count(&self) -> usize
        ensures { result ≡ counted self.now }
    {
        self.closures
    }

    /// Appends a function to `lib`, and updates this index. The caller has to prove that this is the index of `lib`,
    /// and that no function has the key yet. Returns `AllocError` if memory runs out; then the library is unchanged,
    /// and this is still its index.
    pub fn add_function(
        &mut self,
        lib: &mut FnLib,
        key: FnKey,
        function: Rc<ScriptFuncDef>,
    ) -> Result<(), AllocError>
        requires agrees { Agrees self.old (keys_of lib.old.entries) }
        requires new { has_key (key_of key) (keys_of lib.old.entries) ≡ false }
        ensures ok { OnOk result (lib.new.entries ≡ lib.old.entries ++ (key, function) ∷ []) }
        ensures err { OnErr result (lib.new.entries ≡ lib.old.entries) }
        ensures agrees { Agrees self.new (keys_of lib.new.entries) }
    {
        let closure = is_closure_key(&key);
        let name = key.name.clone()?;
        let more = self.closures_with(closure, lib);
        // With capacity reserved for the name, nothing can fail once the function is in the library.
        self.names.reserve(1)?;
        lib.insert(key, function)?;
        self.names.insert(name)?;
        self.closures = more;
        Ok(())
    }

    // The number of closures with one more function.
    fn closures_with(&self, closure: bool, lib: &FnLib) -> usize
        requires { Agrees self.now (keys_of lib.now.entries) }
        ensures { result ≡ (if closure then counted self.now + 1 else counted self.now) }
    {
        // The length of a library shows that one more does not overflow.
        let _functions = lib.len();
        if closure {
            self.closures + 1
        } else {
            self.closures
        }
    }
}

// Adds the name of a function.
fn add_name(names: &mut IndexSet<RcStr>, key: &FnKey) -> Result<(), AllocError>
    ensures { OnOk result ((name : Text) → listed name names.new.keys
        ≡ (listed name names.old.keys || same_text (key_of key.now).name name)) }
{
    names.insert(key.name.clone()?)?;
    Ok(())
}

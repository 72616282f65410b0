//! `FnLib`: functions and closures by key, without an index of names.

ghost use Rattle.std.specs.Prelude.{◌≡◌, ◌↔◌, ◌++◌, ◌∷◌, [], true, false, IsTrue, OnOk, OnErr, IfOk, fold, map};
ghost use Rattle.indexmap.specs.IndexMap.{values};
ghost use Rattle.rhai_grammar.specs.Keys.{key_of, keys_of, same_key, fed_key, has_key, has_name, closures, is_closure};

use indexmap::IndexMap;
use rhai_grammar::FnKey;
use rhai_lower::ScriptFuncDef;
use std::alloc::{AllocError, Global};
use std::hash::{Hash, Hasher};
use std::rc::Rc;

/// A script's functions and closures by their keys, in the order in which they end.
pub type FnLib = IndexMap<FnKey, Rc<ScriptFuncDef>>;

/// Whether two keys are of the same function: they have the same receiver type, name and number of parameters. Such
/// keys have equal hashes. Does not allocate.
pub fn is_same_key(left: &FnKey, right: &FnKey) -> bool
    ensures value { result ≡ same_key (key_of left.now) (key_of right.now) }
    ensures parts { IsTrue result ↔ (key_of left.now ≡ key_of right.now) }
    ensures hashed { IsTrue result → fed_key (key_of left.now) ≡ fed_key (key_of right.now) }
{
    *left == *right
}

/// Feeds a key to a hasher: its receiver type, its name and the number of its parameters, and nothing else.
pub fn hash_key<H: Hasher>(key: &FnKey, state: &mut H)
    ensures { state.new ≡ fold H.write state.old (fed_key (key_of key.now)) }
{
    key.hash(state);
}

/// Whether a function has this key. Does not allocate.
pub fn has_function(lib: &FnLib, key: &FnKey) -> bool
    ensures { result ≡ has_key (key_of key.now) (keys_of lib.now.entries) }
{
    lib.contains_key(key)
}

/// Appends a function. The caller has to prove that no function has its key yet. Returns `AllocError` if memory runs
/// out; then nothing changes.
pub fn add_function(
    lib: &mut FnLib,
    key: FnKey,
    function: Rc<ScriptFuncDef>,
) -> Result<(), AllocError>
    requires { has_key (key_of key) (keys_of lib.old.entries) ≡ false }
    ensures ok { OnOk result (lib.new.entries ≡ lib.old.entries ++ (key, function) ∷ []) }
    ensures err { OnErr result (lib.new.entries ≡ lib.old.entries) }
{
    lib.insert(key, function)?;
    Ok(())
}

/// All functions, in the order in which they ended. Returns `AllocError` if memory runs out.
pub fn functions(alloc: Global, lib: &FnLib) -> Result<Vec<Rc<ScriptFuncDef>>, AllocError>
    ensures { IfOk result (λ all. map (λ f. f.value) all.items ≡ map (λ f. f.value) (values lib.now)) }
{
    let mut all = Vec::new(alloc);
    for function in lib.values() {
        all.push(function.clone()?)?;
    }
    Ok(all)
}

/// Whether a function or closure has this name. Does not allocate. Takes time linear in the number of functions.
pub fn is_function_name(lib: &FnLib, name: &str) -> bool
    ensures { result ≡ has_name name.now (keys_of lib.now.entries) }
{
    for key in lib.keys() {
        if key.name.as_str() == name {
            return true;
        }
    }
    false
}

/// The number of closures, which are the functions whose names begin with `anon$`. Does not allocate. Takes time linear
/// in the number of functions.
pub fn closure_count(lib: &FnLib) -> usize
    ensures { result ≡ closures (keys_of lib.now.entries) }
{
    let mut count = 0;
    for key in lib.keys() {
        if is_closure_key(key) {
            count += 1;
        }
    }
    count
}

// Whether a key's name begins with `anon$`.
pub(crate) fn is_closure_key(key: &FnKey) -> bool
    ensures { result ≡ is_closure (key_of key.now) }
{
    key.name.as_str().as_bytes().starts_with(b"anon$")
}

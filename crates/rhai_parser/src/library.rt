//! `take_library`: a state's functions while a script is read.

ghost use Rattle.std.specs.Prelude.{◌≡◌, IfOk, OnErr};

use rhai_base::{FnLib, Library, LibraryIndex};
use std::alloc::{AllocError, Global};
use std::mem;

/// Takes the functions out of `lib`, with a new index. The error is that there is no memory for that;
/// then nothing changes.
pub(crate) fn take_library(alloc: Global, lib: &mut FnLib) -> Result<Library, AllocError>
    ensures ok { IfOk result (λ library. library ≡ lib.old.entries) }
    ensures err { OnErr result (lib.new ≡ lib.old) }
{
    let index = LibraryIndex::new(alloc, lib)?;
    let functions = mem::replace(lib, FnLib::new(alloc));
    Ok(Library::new(functions, index))
}

//! `AST`: a parsed script, with its statements and its functions.

ghost use Rattle.std.specs.Prelude.{◌≡◌};
ghost use Rattle.std.specs.Slice.Iter.{iter_rest};
ghost use Rattle.std.specs.Iterator.Adapters.{IterYieldsInOrder};

use crate::parts::ScriptFuncParts;
use crate::stmt::{StmtBlock, StmtBlockContainer};
use std::alloc::Global;
use std::rc::{Rc, RcStr};
use std::slice::Iter;

/// A function or closure of a script.
#[derive(PartialEq, Debug)]
pub struct ScriptFuncDef {
    /// The type of the object that it is a method of, if there is one.
    pub this_type: Option<RcStr>,
    /// Its name; a closure's name is generated.
    pub name: RcStr,
    /// Whether only the script itself may call it.
    pub private: bool,
    /// The names of its parameters; a closure's begin with the names that it captures.
    pub params: Vec<RcStr>,
    pub body: StmtBlock,
    /// The doc comments before it, joined and unindented; empty for closures.
    pub comments: Vec<RcStr>,
}

/// A parsed script.
#[derive(PartialEq, Debug, Drop)]
pub struct AST {
    /// The statements of the global level.
    pub statements: StmtBlockContainer,
    /// The functions and closures, in the order in which they end.
    pub functions: Vec<Rc<ScriptFuncDef>>,
}

impl AST {
    /// The functions and closures, in the order in which they end. Does not allocate.
    pub fn iter_functions(&self) -> Iter<'_, Rc<ScriptFuncDef>>
        ensures rest { iter_rest result ≡ self.now.functions.items }
        ensures runs { IterYieldsInOrder (Rc ScriptFuncDef Global) }
    {
        self.functions.iter()
    }
}

impl ScriptFuncDef {
    /// The parts of the function. Does not allocate.
    pub fn into_parts(self) -> ScriptFuncParts
        ensures { result ≡ record {
          this_type = self.this_type;
          name = self.name;
          private = self.private;
          params = self.params;
          body = self.body;
          comments = self.comments;
        } }
    {
        let ScriptFuncDef {
            this_type,
            name,
            private,
            params,
            body,
            comments,
        } = self;
        ScriptFuncParts {
            this_type,
            name,
            private,
            params,
            body,
            comments,
        }
    }
}

impl Drop for ScriptFuncDef {
    // As derived, but proved once (`StmtBlock`).
    fn drop(self) {
        let ScriptFuncDef {
            this_type: _,
            name: _,
            private: _,
            params: _,
            body: _,
            comments: _,
        } = self;
    }
}

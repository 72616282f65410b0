//! `Known`: what is known around a script, or around a function of it.

ghost use Rattle.std.specs.Prelude.{◌≡◌, ◌++◌, IfOk, OnOk, map};
ghost use Rattle.std.specs.Rc.{rc_str_bytes};
ghost use Rattle.rhai_lower.specs.Slots.{is_declared};
ghost use Rattle.rhai_grammar.specs.Imports.{is_among};
ghost use Rattle.rhai_base.specs.Frames.{imported_names, known_variables};

use rhai_lower::{NamedList, Scope, is_named};
use std::alloc::{AllocError, Global};
use std::marker::Model;
use std::rc::RcStr;

/// What is known before a script, or a function of it, defines or imports anything.
#[derive(Drop)]
pub struct Known<'p> {
    // The variables that the caller gives to the script, if it gives any.
    variables: Option<&'p Scope>,
    // The names of the modules that were imported around the script.
    imports: &'p [RcStr],
    // Those of the modules that were imported around a function, in lists from the oldest on.
    around: Vec<&'p NamedList<RcStr>>,
    // The names of the engine's modules.
    modules: &'p NamedList<RcStr>,
}

impl<'p> Model for Known<'p> {
    ghost use Rattle.std.specs.Prelude.{◌++◌, map};
    ghost use Rattle.std.specs.Rc.{rc_str_bytes};
    ghost use Rattle.rhai_grammar.specs.Contexts as context;
    ghost use Rattle.rhai_base.specs.Frames.{imported_names, known_variables};

    ghost Value = { context.Known };

    ghost view = { λ k. record {
      variables = known_variables k.variables;
      imports = map rc_str_bytes k.imports.now ++ imported_names k.around.items;
      modules = map rc_str_bytes k.modules.now;
    } };
}

impl<'p> Known<'p> {
    /// What is known around a script: these variables, if the caller gives it any, and the names of modules that were
    /// imported around it, and of the engine's modules. Does not allocate.
    pub fn new(
        alloc: Global,
        variables: &'p Option<&Scope>,
        imports: &'p [RcStr],
        modules: &'p NamedList<RcStr>,
    ) -> Known<'p>
        ensures { result ≡ record {
          variables = known_variables variables.now;
          imports = map rc_str_bytes imports.now;
          modules = map rc_str_bytes modules.now;
        } }
    {
        Known {
            variables: match variables {
                Some(variables) => Some(*variables),
                None => None,
            },
            imports,
            around: Vec::new(alloc),
            modules,
        }
    }

    // The same once more. The error is that there is no memory for it.
    pub(crate) fn try_clone<'k>(&'k self, alloc: Global) -> Result<Known<'k>, AllocError>
        ensures { IfOk result (λ same. same ≡ self.now) }
    {
        let mut around = Vec::new(alloc);
        around.extend_from_slice(&self.around)?;
        Ok(Known {
            variables: self.variables,
            imports: self.imports,
            around,
            modules: self.modules,
        })
    }

    // Adds a list of imports after those that are known. The error is that there is no memory for it.
    pub(crate) fn push_imports(&mut self, list: &'p NamedList<RcStr>) -> Result<(), AllocError>
        ensures { OnOk result (self.new
            ≡ record self.old { imports = self.old.imports ++ map rc_str_bytes list.now }) }
    {
        if !list.is_empty() {
            self.around.push(list)?;
        }
        Ok(())
    }

    // Whether the caller gives a variable of this name.
    pub(crate) fn declares(&self, name: &str) -> bool
        ensures { result ≡ is_declared name.now self.now.variables }
    {
        match self.variables {
            Some(variables) => variables.contains(name),
            None => false,
        }
    }

    // Whether a module of this name was imported around the script, or around a function.
    pub(crate) fn has_import(&self, name: &str) -> bool
        ensures { result ≡ is_among name.now self.now.imports }
    {
        is_named(self.imports, name) || is_listed(&self.around, name)
    }

    // Whether the engine has a module of this name.
    pub(crate) fn has_module(&self, name: &str) -> bool
        ensures { result ≡ is_among name.now self.now.modules }
    {
        self.modules.has_name(name)
    }
}

// Whether a module of this name is in one of the lists.
fn is_listed(lists: &[&NamedList<RcStr>], name: &str) -> bool
    ensures { result ≡ is_among name.now (imported_names lists.now) }
{
    for list in lists {
        if list.has_name(name) {
            return true;
        }
    }
    false
}

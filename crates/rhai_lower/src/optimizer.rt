//! What an optimizer is, and a stand-in that leaves every script as it is.

ghost use Rattle.std.specs.Prelude.{◌≡◌, IfOk, Ok};
ghost use Rattle.rhai_lower.specs.Optimizer.{Makes, script_of, unoptimized};

use crate::ast::{AST, ScriptFuncDef};
use crate::scope::Scope;
use crate::stmt::StmtBlockContainer;
use std::alloc::{AllocError, Global};
use std::rc::Rc;

/// How much of a script may be evaluated before it runs.
#[derive(Clone, Copy, PartialEq, Eq, Hash, Debug)]
pub enum OptimizationLevel {
    /// Nothing.
    None,
    /// Only what does not change the script's effects.
    Simple,
    /// Everything that can be known.
    Full,
}

/// Makes a script of what was read. An optimizer may run out of memory, and refuses for nothing else.
pub trait Optimizer {
    /// Which scripts it may make of constants, statements and functions at a level.
    ghost makes: { Self → Makes };

    /// The script that it makes of these statements and functions. `constants` are variables from outside, and `level`
    /// is how much may be evaluated. Returns `AllocError` if memory runs out.
    fn optimize_into_ast(
        &self,
        alloc: Global,
        constants: Option<&Scope>,
        statements: StmtBlockContainer,
        functions: Vec<Rc<ScriptFuncDef>>,
        level: OptimizationLevel,
    ) -> Result<AST, AllocError>
        ensures { IfOk result (makes self.now constants.entry statements functions level) };
}

/// The optimizer that leaves every script as it is, whatever the constants and the level are.
#[derive(Clone, Copy, PartialEq, Eq, Hash, Debug)]
pub struct Unoptimized;

impl Optimizer for Unoptimized {
    ghost makes = { λ _. unoptimized };

    /// The script of these statements and functions, unchanged. Does not allocate and never fails.
    fn optimize_into_ast(
        &self,
        alloc: Global,
        constants: Option<&Scope>,
        statements: StmtBlockContainer,
        functions: Vec<Rc<ScriptFuncDef>>,
        level: OptimizationLevel,
    ) -> Result<AST, AllocError> {
        optimize_into_ast(alloc, constants, statements, functions, level)
    }
}

/// The script of these statements and functions, unchanged, whatever the constants and the level are. Does not allocate
/// and never fails.
pub fn optimize_into_ast(
    _alloc: Global,
    _constants: Option<&Scope>,
    statements: StmtBlockContainer,
    functions: Vec<Rc<ScriptFuncDef>>,
    _level: OptimizationLevel,
) -> Result<AST, AllocError>
    ensures { result ≡ Ok (script_of statements functions) }
{
    Ok(AST {
        statements,
        functions,
    })
}

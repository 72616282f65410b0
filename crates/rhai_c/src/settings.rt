//! `Settings`: what scripts are read under.

ghost use Rattle.std.specs.Prelude.{◌≡◌, OnErr, OnOk};
ghost use Rattle.rhai_c.specs.Options.{SetsIf, new_settings, with_constant, with_module, with_option};
ghost use Rattle.rhai_c.specs.declared.options.HostOption.TheVariants.{DocComments, Language};

use crate::options::HostOption;
use bitflags::Flags;
use rhai_script::{Engine, LangOptions, Limits, Scope};
use std::alloc::{AllocError, Global};
use std::rc::RcStr;

/// What scripts are read under.
#[derive(Drop)]
pub struct Settings {
    /// The options and limits of the language.
    pub engine: Engine,
    /// What the tokenizer is asked for.
    pub limits: Limits,
    /// The names of constants from outside.
    pub constants: Scope,
}

impl Settings {
    /// The settings of a new engine, with doc comments and without constants. It does not allocate.
    pub fn new(alloc: Global) -> Settings
        ensures { result ≡ new_settings }
    {
        Settings {
            engine: Engine::new(alloc),
            limits: Limits {
                doc_comments: true,
                max_string_size: 0,
            },
            constants: Scope::new(alloc),
        }
    }

    // Sets the language options to the sum of these bits, if each is one of theirs.
    fn set_language(&mut self, bits: usize) -> bool
        ensures { SetsIf (with_option Language bits self.old) self.old self.new result }
    {
        let Ok(bits) = u8::try_from(bits) else {
            return false;
        };
        self.engine.set_options(LangOptions::from_bits_retain(bits));
        true
    }

    // Sets whether doc comments are tokens, by 0 or 1.
    fn set_doc_comments(&mut self, value: usize) -> bool
        ensures { SetsIf (with_option DocComments value self.old) self.old self.new result }
    {
        if value < 2 {
            self.limits.doc_comments = value == 1;
        }
        value < 2
    }

    /// Gives an option this value, and says whether it is one of its values. Otherwise nothing changes.
    pub fn set(&mut self, option: HostOption, value: usize) -> bool
        ensures { SetsIf (with_option option value self.old) self.old self.new result }
    {
        match option {
            HostOption::ScriptDepth => self.engine.set_max_expr_depth(value),
            HostOption::FunctionDepth => self.engine.set_max_function_expr_depth(value),
            HostOption::Functions => self.engine.set_max_functions(value),
            HostOption::ArraySize => self.engine.set_max_array_size(value),
            HostOption::MapSize => self.engine.set_max_map_size(value),
            HostOption::StringSize => self.limits.max_string_size = value,
            HostOption::Language => return self.set_language(value),
            HostOption::DocComments => return self.set_doc_comments(value),
        }
        true
    }

    /// Lets scripts know a constant of this name. Returns `AllocError` if memory runs out; then nothing changes.
    pub fn add_constant(&mut self, alloc: Global, name: &str) -> Result<(), AllocError>
        ensures ok { OnOk result (self.new ≡ with_constant name.now self.old) }
        ensures err { OnErr result (self.new ≡ self.old) }
    {
        let name = RcStr::from_str(alloc, name)?;
        self.constants.push(name, true)
    }

    /// Lets scripts find a module of this name. Returns `AllocError` if memory runs out; then nothing changes.
    pub fn add_module(&mut self, name: &str) -> Result<(), AllocError>
        ensures ok { OnOk result (self.new ≡ with_module name.now self.old) }
        ensures err { OnErr result (self.new ≡ self.old) }
    {
        self.engine.add_sub_module(name)
    }
}

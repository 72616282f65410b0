//! The settings that scripts are read under.

use crate::options::FORBIDDING;
use clap::ArgMatches;
use rhai_report::Outside;
use rhai_script::{
    AST, Engine, FnLib, LangOptions, Limits, OptimizationLevel, ParseResult, ParseState, Scope,
    TokenStream, TokenizerControl, Unoptimized, compile_expression_with, compile_with,
    is_valid_identifier,
};
use std::alloc::{AllocError, Global};
use std::rc::RcStr;

/// What scripts are read under.
#[derive(Drop)]
pub struct Settings<'m> {
    engine: Engine,
    /// What a tokenizer is asked for.
    pub limits: Limits,
    constants: Scope,
    is_expression: bool,
    /// The names that scripts know from outside.
    pub outside: Outside<'m>,
}

/// What a tokenizer is asked for by these words.
pub fn limits_of(words: &ArgMatches<'_>) -> Limits {
    Limits {
        doc_comments: words.get_flag("doc"),
        max_string_size: words.get_one::<usize>("max-string").unwrap_or(0),
    }
}

// The parts of the language that these words leave.
fn options_of(words: &ArgMatches<'_>, mut options: LangOptions) -> LangOptions {
    for (name, part, _) in FORBIDDING {
        if words.get_flag(name) {
            options -= part;
        }
    }
    if words.get_flag("strict") {
        options |= LangOptions::STRICT_VAR;
    }
    options
}

// Sets the options and limits that these words name.
fn set_limits(engine: &mut Engine, words: &ArgMatches<'_>) {
    engine.set_options(options_of(words, engine.options()));
    if let Some(depth) = words.get_one("max-depth") {
        engine.set_max_expr_depth(depth);
    }
    if let Some(depth) = words.get_one("max-fn-depth") {
        engine.set_max_function_expr_depth(depth);
    }
    if let Some(count) = words.get_one("max-functions") {
        engine.set_max_functions(count);
    }
    if let Some(size) = words.get_one("max-array") {
        engine.set_max_array_size(size);
    }
    if let Some(size) = words.get_one("max-map") {
        engine.set_max_map_size(size);
    }
}

// The first of these that is no name.
fn first_wrong<'m>(names: &[&'m str]) -> Option<&'m str> {
    names
        .iter()
        .copied()
        .find(|name| !is_valid_identifier(name))
}

/// The first name from outside that is none, with the option that it was given to.
pub fn wrong_name<'m>(outside: Outside<'m>) -> Option<(&'static str, &'m str)> {
    if let Some(name) = first_wrong(outside.variables) {
        return Some(("--constant", name));
    }
    Some(("--module", first_wrong(outside.modules)?))
}

/// The names from outside that these words give.
pub fn outside_of<'m>(words: &'m ArgMatches<'_>) -> Outside<'m> {
    Outside {
        variables: words.get_strs("constant").unwrap_or(&[]),
        modules: words.get_strs("module").unwrap_or(&[]),
    }
}

impl<'m> Settings<'m> {
    /// What these words ask for. Returns `AllocError` if memory runs out.
    pub fn new(alloc: Global, words: &'m ArgMatches<'_>) -> Result<Settings<'m>, AllocError> {
        let outside = outside_of(words);
        let mut engine = Engine::new(alloc);
        set_limits(&mut engine, words);
        for name in outside.modules {
            engine.add_sub_module(name)?;
        }
        let mut constants = Scope::new(alloc);
        for name in outside.variables {
            constants.push(RcStr::from_str(alloc, name)?, true)?;
        }
        Ok(Settings {
            engine,
            limits: limits_of(words),
            constants,
            is_expression: words.get_flag("expression"),
            outside,
        })
    }

    /// The tree of a text: a script, or one expression. Errors are those of `compile_with`.
    pub fn parse(&self, alloc: Global, text: &str) -> ParseResult<AST> {
        let constants = Some(&self.constants);
        let level = OptimizationLevel::None;
        let Settings { engine, limits, .. } = self;
        if self.is_expression {
            compile_expression_with(alloc, engine, text, *limits, constants, level, &Unoptimized)
        } else {
            compile_with(alloc, engine, text, *limits, constants, level, &Unoptimized)
        }
    }

    /// The tree of a stream of tokens, as [`Settings::parse`] of a text.
    pub fn parse_stream(&self, alloc: Global, input: &mut TokenStream) -> ParseResult<AST> {
        let mut lib = FnLib::new(alloc);
        let constants = Some(&self.constants);
        let state = ParseState::new(alloc, constants, input, TokenizerControl, &mut lib);
        let level = OptimizationLevel::None;
        if self.is_expression {
            self.engine
                .parse_global_expr_with(state, |_settings| {}, level, &Unoptimized)
        } else {
            self.engine.parse_with(state, level, &Unoptimized)
        }
    }
}

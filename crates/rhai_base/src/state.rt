//! `ParseState`: the state that a caller gives to an entry point.

ghost use Rattle.std.specs.Prelude.{◌≡◌, [], true};
ghost use Rattle.rhai_grammar.specs.declared.filter.ExprFilter.TheVariants.{All};
ghost use Rattle.rhai_base.specs.Counts.{counts_of, none_yet};

use crate::counts::ParseCounts;
use crate::fn_lib::FnLib;
use rhai_grammar::ExprFilter;
use rhai_lower::{Position, Scope, TokenStream};
use std::alloc::Global;
use std::rc::RcStr;

/// Controls the tokenizer. The parser keeps it and does not read it.
#[derive(Clone, Copy, PartialEq, Eq, Hash, Debug)]
pub struct TokenizerControl;

/// The state of a parse. It is written `ParseState<'a, 't, 'f>`: the types of the owned fields are parameters so that
/// the contract of a call that takes a state by value can say what the call leaves in the stream and in the library,
/// which the state borrows.
#[derive(Drop)]
pub struct ParseState<
    'a,
    't,
    'f,
    Slots = Scope,
    Captures = Vec<(RcStr, Position)>,
    Names = Vec<RcStr>,
> {
    /// The tokens.
    pub input: &'t mut TokenStream,
    /// The functions and closures that have ended.
    pub lib: &'f mut FnLib,
    /// How many functions and closures have begun, and how many grammar functions are active.
    pub counts: ParseCounts,
    /// Controls the tokenizer.
    pub tokenizer_control: TokenizerControl,
    /// Which tokens an expression may contain.
    pub expr_filter: ExprFilter,
    /// Variables from outside the script.
    pub external_constants: Option<&'a Scope>,
    /// The slots of the live variables.
    pub stack: Slots,
    /// The number of slots below the current block.
    pub frame_pointer: usize,
    /// The names that a closure captures, each with the position of its first use.
    pub external_vars: Captures,
    /// Whether a name without a slot is captured.
    pub allow_capture: bool,
    /// The names of the live imports, from the oldest to the latest.
    pub imports: Names,
    /// The names of the imports of the enclosing scripts and functions.
    pub global_imports: Names,
}

impl<'a, 't, 'f> ParseState<'a, 't, 'f> {
    /// The state before anything is parsed: every token is allowed in an expression, there is no slot, import or
    /// captured name, names may be captured, and all counts are 0. Does not allocate.
    pub fn new(
        alloc: Global,
        external_constants: Option<&'a Scope>,
        input: &'t mut TokenStream,
        tokenizer_control: TokenizerControl,
        lib: &'f mut FnLib,
    ) -> Self
        ensures input_name { result.input.ghost_name ≡ input.entry.ghost_name }
        ensures input { result.input.now ≡ input.old }
        ensures lib_name { result.lib.ghost_name ≡ lib.entry.ghost_name }
        ensures lib { result.lib.now ≡ lib.old }
        ensures counts { counts_of result.counts ≡ none_yet }
        ensures control { result.tokenizer_control ≡ tokenizer_control }
        ensures filter { result.expr_filter ≡ All }
        ensures constants { result.external_constants ≡ external_constants.entry }
        ensures stack { result.stack ≡ [] }
        ensures frame { result.frame_pointer ≡ 0 }
        ensures captured { result.external_vars.items ≡ [] }
        ensures capture { result.allow_capture ≡ true }
        ensures imports { result.imports.items ≡ [] }
        ensures global_imports { result.global_imports.items ≡ [] }
    {
        ParseState {
            input,
            lib,
            counts: ParseCounts::new(),
            tokenizer_control,
            expr_filter: ExprFilter::All,
            external_constants,
            stack: Scope::new(alloc),
            frame_pointer: 0,
            external_vars: Vec::new(alloc),
            allow_capture: true,
            imports: Vec::new(alloc),
            global_imports: Vec::new(alloc),
        }
    }
}

/// The greatest number of grammar functions that were active at once so far. Does not allocate.
pub fn nest_peak(state: &ParseState<'_, '_, '_>) -> usize
    ensures { result ≡ (counts_of state.now.counts).peak }
{
    state.counts.nest_peak()
}

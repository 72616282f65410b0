//! Where settings allow constructs, `break`, `continue`, `export`, functions and doc comments.

ghost use Rattle.std.specs.Prelude.{◌≡◌, IfErr, OnOk, false, true};
ghost use Rattle.rhai_grammar.specs.Constructs.{may_be_value};
ghost use Rattle.rhai_grammar.specs.Contexts.{Context, allows_looping};
ghost use Rattle.rhai_grammar.specs.Settings.{at_global_level, in_loop};
ghost use Rattle.rhai_grammar.specs.Starts.{may_be_closure};
ghost use Rattle.rhai_base.specs.Settings.{no_comment, no_export, no_function, no_loop, settings_of};

use crate::flags::{LangOptions, ParseSettingFlags};
use crate::settings::ParseSettings;
use rhai_grammar::role::Bars;
use rhai_grammar::{Construct, ExprFilter, ParseError, ParseErrorType, ParseResult};
use rhai_lower::Position;

/// Whether a construct may be an operand under these settings: a block, `if`, `switch` and loops, by an option each.
/// `looping` is whether the engine lets scripts have loops; without, a loop is no operand either.
pub fn may_be_value(settings: ParseSettings, looping: bool, construct: Construct) -> bool
    ensures { (context : Context) → context.settings ≡ settings_of settings → looping ≡ allows_looping context
        → result ≡ may_be_value context construct }
{
    match construct {
        Construct::Block => settings.has_option(LangOptions::STMT_EXPR),
        Construct::If => settings.has_option(LangOptions::IF_EXPR),
        Construct::Switch => settings.has_option(LangOptions::SWITCH_EXPR),
        Construct::While | Construct::Loop | Construct::Do | Construct::For => {
            looping && settings.has_option(LangOptions::LOOP_EXPR)
        }
        _ => false,
    }
}

/// Whether a closure may be an operand under these settings. Where an expression may not
/// contain `|`, as `filter` says, none begins with it.
pub fn may_be_closure(settings: ParseSettings, filter: ExprFilter, bars: Bars) -> bool
    ensures { (context : Context) → context.settings ≡ settings_of settings → context.filter ≡ filter
        → result ≡ may_be_closure context bars }
{
    let values = settings.has_option(LangOptions::ANON_FN);
    match bars {
        Bars::Pair => values,
        Bars::List => values && matches!(filter, ExprFilter::All),
    }
}

/// Refuses a `break` or `continue` that is not in the body of a loop. The error is `LoopBreak` at `pos`. Does not
/// allocate.
pub fn test_loop(settings: ParseSettings, pos: Position) -> ParseResult<()>
    ensures passes { OnOk result (in_loop (settings_of settings) ≡ true) }
    ensures refused { IfErr result (λ e. (in_loop (settings_of settings) ≡ false) × (e ≡ no_loop pos)) }
{
    if settings.has_flag(ParseSettingFlags::BREAKABLE) {
        return Ok(());
    }
    Err(ParseError(ParseErrorType::LoopBreak, pos))
}

/// Refuses an `export` that is not at the global level of a script. The error is `WrongExport` at `pos`. Does not
/// allocate.
pub fn test_global(settings: ParseSettings, pos: Position) -> ParseResult<()>
    ensures passes { OnOk result (at_global_level (settings_of settings) ≡ true) }
    ensures refused { IfErr result (λ e. (at_global_level (settings_of settings) ≡ false) × (e ≡ no_export pos)) }
{
    if settings.has_flag(ParseSettingFlags::GLOBAL_LEVEL) {
        return Ok(());
    }
    Err(ParseError(ParseErrorType::WrongExport, pos))
}

/// Refuses a function that is not at the global level of a script. The error is `WrongFnDefinition` at `pos`. Does not
/// allocate.
pub fn test_function(settings: ParseSettings, pos: Position) -> ParseResult<()>
    ensures passes { OnOk result (at_global_level (settings_of settings) ≡ true) }
    ensures refused { IfErr result (λ e. (at_global_level (settings_of settings) ≡ false) × (e ≡ no_function pos)) }
{
    if settings.has_flag(ParseSettingFlags::GLOBAL_LEVEL) {
        return Ok(());
    }
    Err(ParseError(ParseErrorType::WrongFnDefinition, pos))
}

/// Refuses a doc comment that is not at the global level of a script. The error is `WrongDocComment` at `pos`. Does not
/// allocate.
pub fn test_comment(settings: ParseSettings, pos: Position) -> ParseResult<()>
    ensures passes { OnOk result (at_global_level (settings_of settings) ≡ true) }
    ensures refused { IfErr result (λ e.
        (at_global_level (settings_of settings) ≡ false) × (e ≡ no_comment pos)) }
{
    if settings.has_flag(ParseSettingFlags::GLOBAL_LEVEL) {
        return Ok(());
    }
    Err(ParseError(ParseErrorType::WrongDocComment, pos))
}

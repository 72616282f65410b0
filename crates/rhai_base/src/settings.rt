//! `ParseSettings`: the settings under which a construct is parsed, and their raises.

ghost use Rattle.std.specs.Prelude.{◌≡◌, IfOk, false};
ghost use Rattle.rhai_grammar.specs.Flags.{has};
ghost use Rattle.rhai_grammar.specs.Settings.{at_global_level, below_global_level, closure_settings};
ghost use Rattle.rhai_grammar.specs.Settings.{function_settings, loop_settings};
ghost use Rattle.rhai_base.specs.Settings.{settings_of, IsDeeper, Raises, RaisesInRun};

use crate::flags::{LangOptions, ParseSettingFlags};
use bitflags::Flags;
use rhai_grammar::{ParseError, ParseErrorType, ParseResult};
use rhai_lower::Position;

/// The settings under which a construct is parsed.
#[derive(Debug, Clone, Copy, PartialEq, Eq, Hash)]
pub struct ParseSettings {
    /// How deeply it is nested, from 0.
    pub level: usize,
    /// The greatest level; 0 means no limit.
    pub max_expr_depth: usize,
    /// The position where it begins.
    pub pos: Position,
    /// Where the construct is, and what it must not contain.
    pub flags: ParseSettingFlags,
    /// The parts of the language that it may use.
    pub options: LangOptions,
}

/// The settings after an operator of a run, one level deeper than those before it.
#[derive(Clone, Copy)]
pub struct RunSettings {
    /// Those of the operator's right side.
    pub side: ParseSettings,
    /// Those of the operators that follow it in the run.
    pub next: ParseSettings,
}

impl ParseSettings {
    /// Whether all of these flags are set. Does not allocate.
    pub fn has_flag(&self, flags: ParseSettingFlags) -> bool
        ensures { result ≡ has self.now.flags.0 flags.0 }
    {
        self.flags.contains(flags)
    }

    /// Whether all of these options are set. Does not allocate.
    pub fn has_option(&self, options: LangOptions) -> bool
        ensures { result ≡ has self.now.options.0 options.0 }
    {
        self.options.contains(options)
    }

    /// The settings one level deeper; the level saturates at the greatest `usize`. If there is a limit and the level
    /// has reached it, the error is `ExprTooDeep` at the settings' position. Does not allocate.
    pub fn level_up(&self) -> ParseResult<Self>
        ensures raises { Raises self.now self.now.pos result }
        ensures deeper { IfOk result (λ d. IsDeeper self.now d) }
    {
        self.level_up_with_position(self.pos)
    }

    /// The settings one level deeper, as from `level_up`, at position `pos`. An error has the old position. Does not
    /// allocate.
    #[tactic(auto, unfolding(rhai_grammar::specs::Settings::one_more, crate::specs::Settings::gap))]
    pub fn level_up_with_position(&self, pos: Position) -> ParseResult<Self>
        ensures raises { Raises self.now pos result }
        ensures deeper { IfOk result (λ d. IsDeeper self.now d) }
    {
        if self.max_expr_depth > 0 && self.level >= self.max_expr_depth {
            return Err(ParseError(ParseErrorType::ExprTooDeep, self.pos));
        }
        Ok(ParseSettings {
            level: self.level.saturating_add(1),
            pos,
            ..*self
        })
    }

    /// The settings after an operator at `pos`: those of its right side are one level deeper, at the old position, and
    /// those of the operators that follow it are as deep, at `pos`. An error is that of `level_up`. Does not allocate.
    pub fn level_up_in_run(&self, pos: Position) -> ParseResult<RunSettings>
        ensures raises { RaisesInRun self.now pos result }
        ensures deeper { IfOk result (λ d. IsDeeper self.now d.side × IsDeeper self.now d.next) }
    {
        let side = self.level_up()?;
        Ok(RunSettings {
            side,
            next: side.at(pos),
        })
    }

    /// The settings in the body of a loop, which `break` and `continue` can leave. Does not allocate.
    pub fn loop_body(&self) -> Self
        ensures settings { settings_of result ≡ loop_settings (settings_of self.now) }
        ensures position { result.pos ≡ self.now.pos }
    {
        ParseSettings {
            flags: self.flags | ParseSettingFlags::BREAKABLE,
            ..*self
        }
    }

    /// The settings below the global level of a script, where nothing is exported. Does not allocate.
    pub fn below_global_level(&self) -> Self
        ensures settings { settings_of result ≡ below_global_level (settings_of self.now) }
        ensures below { at_global_level (settings_of result) ≡ false }
        ensures position { result.pos ≡ self.now.pos }
    {
        ParseSettings {
            flags: self.flags - ParseSettingFlags::GLOBAL_LEVEL,
            ..*self
        }
    }

    /// The settings in a function, at the old position: level 0, and at most `max_depth` levels, where 0 means no
    /// limit. The parts of the language are those of `options`, with strict variables where these settings have them.
    /// Of the flags stays that keys of object maps have to be strings. Does not allocate.
    pub fn in_function(&self, options: LangOptions, max_depth: usize) -> Self
        ensures settings { settings_of result ≡ function_settings (settings_of self.now) options.0 max_depth }
        ensures position { result.pos ≡ self.now.pos }
    {
        ParseSettings {
            flags: ParseSettingFlags::FN_SCOPE
                | (self.flags & ParseSettingFlags::DISALLOW_UNQUOTED_MAP_PROPERTIES),
            options: options | (self.options & LangOptions::STRICT_VAR),
            level: 0,
            pos: self.pos,
            max_expr_depth: max_depth,
        }
    }

    /// The settings in a closure, at the old position: the level and its limit stay. The parts of the language are
    /// those of `options`, without strict variables. Of the flags stay that blocks hold a single statement and that
    /// keys of object maps have to be strings. Does not allocate.
    pub fn in_closure(&self, options: LangOptions) -> Self
        ensures settings { settings_of result ≡ closure_settings (settings_of self.now) options.0 }
        ensures below { at_global_level (settings_of result) ≡ false }
        ensures position { result.pos ≡ self.now.pos }
    {
        let kept = ParseSettingFlags::DISALLOW_STATEMENTS_IN_BLOCKS
            | ParseSettingFlags::DISALLOW_UNQUOTED_MAP_PROPERTIES;
        ParseSettings {
            flags: ParseSettingFlags::FN_SCOPE
                | ParseSettingFlags::CLOSURE_SCOPE
                | (self.flags & kept),
            options: options - LangOptions::STRICT_VAR,
            ..*self
        }
    }

    /// The same settings at position `pos`. Does not allocate.
    pub fn at(&self, pos: Position) -> Self
        ensures settings { settings_of result ≡ settings_of self.now }
        ensures position { result.pos ≡ pos }
    {
        ParseSettings { pos, ..*self }
    }
}

//! `HostOption`: an option that a host may set, by its number.

ghost use Rattle.std.specs.Prelude.{◌≡◌, ◌≤◌, MatchOption};
ghost use Rattle.rhai_c.specs.Options.{option_number};

/// An option that a host may set.
#[derive(Clone, Copy, Debug)]
pub enum HostOption {
    /// How deeply a script may nest outside functions; 0 is no limit.
    ScriptDepth,
    /// How deeply a function may nest; 0 is no limit.
    FunctionDepth,
    /// How many functions and closures a script may have; 0 allows none.
    Functions,
    /// How many items an array literal may have; 0 is no limit.
    ArraySize,
    /// How many properties an object map literal may have; 0 is no limit.
    MapSize,
    /// The greatest length of a string in bytes; 0 is no limit.
    StringSize,
    /// The sum of the bits of the language options.
    Language,
    /// Whether doc comments join their functions, and are tokens: 0 or 1.
    DocComments,
}

impl HostOption {
    /// The option of this number, if there is one.
    pub fn of_number(number: u32) -> Option<HostOption>
        ensures { MatchOption result (8 ≤ number) (λ option. option_number option ≡ number) }
    {
        match number {
            0 => Some(HostOption::ScriptDepth),
            1 => Some(HostOption::FunctionDepth),
            2 => Some(HostOption::Functions),
            3 => Some(HostOption::ArraySize),
            4 => Some(HostOption::MapSize),
            5 => Some(HostOption::StringSize),
            6 => Some(HostOption::Language),
            7 => Some(HostOption::DocComments),
            _ => None,
        }
    }
}

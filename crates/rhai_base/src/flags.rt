//! `ParseSettingFlags` and `LangOptions`: sets of bits.

ghost use Rattle.std.specs.Prelude.{⊤, ◌≡◌};
ghost use Rattle.std.specs.Int.RustNames.{bit_and, bit_or, bit_xor};
ghost use Rattle.bitflags.specs.Sets.{without};
ghost use Rattle.rhai_base.specs.FlagNames.{flag_names, option_names};

use bitflags::{Flag, Flags};
use std::ops::{
    BitAnd, BitAndAssign, BitOr, BitOrAssign, BitXor, BitXorAssign, Not, Sub, SubAssign,
};

/// Where a construct is, and what it must not contain.
#[derive(Clone, Copy, PartialEq, Eq, PartialOrd, Ord, Hash, Debug)]
pub struct ParseSettingFlags(u8);

impl ParseSettingFlags {
    /// At the global level of a script.
    pub const GLOBAL_LEVEL: ParseSettingFlags = ParseSettingFlags(1);

    /// In a function or closure.
    pub const FN_SCOPE: ParseSettingFlags = ParseSettingFlags(2);

    /// In a closure.
    pub const CLOSURE_SCOPE: ParseSettingFlags = ParseSettingFlags(4);

    /// In a loop, which `break` and `continue` can leave.
    pub const BREAKABLE: ParseSettingFlags = ParseSettingFlags(8);

    /// A block consists of one expression or assignment.
    pub const DISALLOW_STATEMENTS_IN_BLOCKS: ParseSettingFlags = ParseSettingFlags(16);

    /// The keys of an object map have to be strings.
    pub const DISALLOW_UNQUOTED_MAP_PROPERTIES: ParseSettingFlags = ParseSettingFlags(32);

    /// All flags, with their names.
    pub const FLAGS: &'static [Flag<ParseSettingFlags>] = &[
        Flag {
            name: "GLOBAL_LEVEL",
            value: ParseSettingFlags::GLOBAL_LEVEL,
        },
        Flag {
            name: "FN_SCOPE",
            value: ParseSettingFlags::FN_SCOPE,
        },
        Flag {
            name: "CLOSURE_SCOPE",
            value: ParseSettingFlags::CLOSURE_SCOPE,
        },
        Flag {
            name: "BREAKABLE",
            value: ParseSettingFlags::BREAKABLE,
        },
        Flag {
            name: "DISALLOW_STATEMENTS_IN_BLOCKS",
            value: ParseSettingFlags::DISALLOW_STATEMENTS_IN_BLOCKS,
        },
        Flag {
            name: "DISALLOW_UNQUOTED_MAP_PROPERTIES",
            value: ParseSettingFlags::DISALLOW_UNQUOTED_MAP_PROPERTIES,
        },
    ];
}

impl Flags for ParseSettingFlags {
    type Bits = u8;

    ghost exact = { ⊤ };

    ghost table = { flag_names };

    ghost set_of = { λ f. f.0 };

    fn flags<'a>() -> &'a [Flag<ParseSettingFlags>] {
        ParseSettingFlags::FLAGS
    }

    fn bits(&self) -> u8 {
        self.0
    }

    fn from_bits_retain(bits: u8) -> ParseSettingFlags {
        ParseSettingFlags(bits)
    }
}

impl BitOr for ParseSettingFlags {
    type Output = ParseSettingFlags;

    ghost bitor_gives = { λ a b r. r.0 ≡ bit_or a.0 b.0 };

    fn bitor(self, other: ParseSettingFlags) -> ParseSettingFlags {
        ParseSettingFlags(self.0 | other.0)
    }
}

impl BitOrAssign for ParseSettingFlags {
    ghost bitor_assign_gives = { λ a b r. r.0 ≡ bit_or a.0 b.0 };

    fn bitor_assign(&mut self, other: ParseSettingFlags) {
        *self = *self | other;
    }
}

impl BitAnd for ParseSettingFlags {
    type Output = ParseSettingFlags;

    ghost bitand_gives = { λ a b r. r.0 ≡ bit_and a.0 b.0 };

    fn bitand(self, other: ParseSettingFlags) -> ParseSettingFlags {
        ParseSettingFlags(self.0 & other.0)
    }
}

impl BitAndAssign for ParseSettingFlags {
    ghost bitand_assign_gives = { λ a b r. r.0 ≡ bit_and a.0 b.0 };

    fn bitand_assign(&mut self, other: ParseSettingFlags) {
        *self = *self & other;
    }
}

impl BitXor for ParseSettingFlags {
    type Output = ParseSettingFlags;

    ghost bitxor_gives = { λ a b r. r.0 ≡ bit_xor a.0 b.0 };

    fn bitxor(self, other: ParseSettingFlags) -> ParseSettingFlags {
        ParseSettingFlags(self.0 ^ other.0)
    }
}

impl BitXorAssign for ParseSettingFlags {
    ghost bitxor_assign_gives = { λ a b r. r.0 ≡ bit_xor a.0 b.0 };

    fn bitxor_assign(&mut self, other: ParseSettingFlags) {
        *self = *self ^ other;
    }
}

impl Sub for ParseSettingFlags {
    type Output = ParseSettingFlags;

    ghost sub_gives = { λ a b r. r.0 ≡ without 8 a.0 b.0 };

    fn sub(self, other: ParseSettingFlags) -> ParseSettingFlags {
        ParseSettingFlags(self.0 & !other.0)
    }
}

impl SubAssign for ParseSettingFlags {
    ghost sub_assign_gives = { λ a b r. r.0 ≡ without 8 a.0 b.0 };

    fn sub_assign(&mut self, other: ParseSettingFlags) {
        *self = *self - other;
    }
}

impl Not for ParseSettingFlags {
    type Output = ParseSettingFlags;

    // The named flags that are not set.
    ghost not_gives = { λ a r. r.0 ≡ without 8 63 a.0 };

    fn not(self) -> ParseSettingFlags {
        ParseSettingFlags(63) - self
    }
}

/// The parts of the language that a script may use.
#[derive(Clone, Copy, PartialEq, Eq, PartialOrd, Ord, Hash, Debug)]
pub struct LangOptions(u8);

impl LangOptions {
    /// `if` is allowed as an expression.
    pub const IF_EXPR: LangOptions = LangOptions(1);

    /// `switch` is allowed as an expression.
    pub const SWITCH_EXPR: LangOptions = LangOptions(2);

    /// Loops are allowed as expressions.
    pub const LOOP_EXPR: LangOptions = LangOptions(4);

    /// Blocks are allowed as expressions.
    pub const STMT_EXPR: LangOptions = LangOptions(8);

    /// Closures are allowed.
    pub const ANON_FN: LangOptions = LangOptions(16);

    /// Loops are allowed.
    pub const LOOPING: LangOptions = LangOptions(32);

    /// Each variable and module that is used has to be defined.
    pub const STRICT_VAR: LangOptions = LangOptions(64);

    /// A variable may shadow another one.
    pub const SHADOWING: LangOptions = LangOptions(128);

    /// All options, with their names.
    pub const FLAGS: &'static [Flag<LangOptions>] = &[
        Flag {
            name: "IF_EXPR",
            value: LangOptions::IF_EXPR,
        },
        Flag {
            name: "SWITCH_EXPR",
            value: LangOptions::SWITCH_EXPR,
        },
        Flag {
            name: "LOOP_EXPR",
            value: LangOptions::LOOP_EXPR,
        },
        Flag {
            name: "STMT_EXPR",
            value: LangOptions::STMT_EXPR,
        },
        Flag {
            name: "ANON_FN",
            value: LangOptions::ANON_FN,
        },
        Flag {
            name: "LOOPING",
            value: LangOptions::LOOPING,
        },
        Flag {
            name: "STRICT_VAR",
            value: LangOptions::STRICT_VAR,
        },
        Flag {
            name: "SHADOWING",
            value: LangOptions::SHADOWING,
        },
    ];
}

impl Flags for LangOptions {
    type Bits = u8;

    ghost exact = { ⊤ };

    ghost table = { option_names };

    ghost set_of = { λ f. f.0 };

    fn flags<'a>() -> &'a [Flag<LangOptions>] {
        LangOptions::FLAGS
    }

    fn bits(&self) -> u8 {
        self.0
    }

    fn from_bits_retain(bits: u8) -> LangOptions {
        LangOptions(bits)
    }
}

impl BitOr for LangOptions {
    type Output = LangOptions;

    ghost bitor_gives = { λ a b r. r.0 ≡ bit_or a.0 b.0 };

    fn bitor(self, other: LangOptions) -> LangOptions {
        LangOptions(self.0 | other.0)
    }
}

impl BitOrAssign for LangOptions {
    ghost bitor_assign_gives = { λ a b r. r.0 ≡ bit_or a.0 b.0 };

    fn bitor_assign(&mut self, other: LangOptions) {
        *self = *self | other;
    }
}

impl BitAnd for LangOptions {
    type Output = LangOptions;

    ghost bitand_gives = { λ a b r. r.0 ≡ bit_and a.0 b.0 };

    fn bitand(self, other: LangOptions) -> LangOptions {
        LangOptions(self.0 & other.0)
    }
}

impl BitAndAssign for LangOptions {
    ghost bitand_assign_gives = { λ a b r. r.0 ≡ bit_and a.0 b.0 };

    fn bitand_assign(&mut self, other: LangOptions) {
        *self = *self & other;
    }
}

impl BitXor for LangOptions {
    type Output = LangOptions;

    ghost bitxor_gives = { λ a b r. r.0 ≡ bit_xor a.0 b.0 };

    fn bitxor(self, other: LangOptions) -> LangOptions {
        LangOptions(self.0 ^ other.0)
    }
}

impl BitXorAssign for LangOptions {
    ghost bitxor_assign_gives = { λ a b r. r.0 ≡ bit_xor a.0 b.0 };

    fn bitxor_assign(&mut self, other: LangOptions) {
        *self = *self ^ other;
    }
}

impl Sub for LangOptions {
    type Output = LangOptions;

    ghost sub_gives = { λ a b r. r.0 ≡ without 8 a.0 b.0 };

    fn sub(self, other: LangOptions) -> LangOptions {
        LangOptions(self.0 & !other.0)
    }
}

impl SubAssign for LangOptions {
    ghost sub_assign_gives = { λ a b r. r.0 ≡ without 8 a.0 b.0 };

    fn sub_assign(&mut self, other: LangOptions) {
        *self = *self - other;
    }
}

impl Not for LangOptions {
    type Output = LangOptions;

    // The named options that are not set.
    ghost not_gives = { λ a r. r.0 ≡ without 8 255 a.0 };

    fn not(self) -> LangOptions {
        LangOptions(255) - self
    }
}

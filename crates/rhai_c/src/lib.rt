//! The library for hosts in other languages: `include/rhai_parser.h` declares its calls.
#![tactic(auto)]

mod answer;
mod changes;
mod exports;
mod held;
mod kept;
mod options;
mod parts;
mod scripts;
mod settings;
mod status;

pub use answer::RhaiAnswer;
pub use exports::{
    rhai_engine_add_constant_at, rhai_engine_add_module_at, rhai_engine_free_at,
    rhai_engine_new_at, rhai_engine_set_at, rhai_free_at, rhai_names_at, rhai_parse_at,
    rhai_tokens_at, rhai_version,
};
pub use held::Held;

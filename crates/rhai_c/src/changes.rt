//! `Change`: what a host does to its settings.

ghost use Rattle.std.specs.Prelude.{◌≡◌};
ghost use Rattle.rhai_c.specs.Changes.{IsChanged};
ghost use Rattle.rhai_c.specs.declared.changes.Change.TheVariants.{Constant, Module, Set};

use crate::options::HostOption;
use crate::settings::Settings;
use crate::status::Status;
use std::alloc::Global;

/// What a host does to its settings.
#[derive(Clone, Copy)]
pub enum Change<'a> {
    /// Gives the option of this number this value.
    Set(u32, usize),
    /// Adds a constant of this name.
    Constant(&'a [u8]),
    /// Adds a module of this name.
    Module(&'a [u8]),
}

// Gives an option a value by its number.
fn set(settings: &mut Settings, number: u32, value: usize) -> Status
    ensures { IsChanged (Set number value) settings.old settings.new result }
{
    match HostOption::of_number(number) {
        Some(option) if settings.set(option, value) => Status::Ok,
        _ => Status::BadArgument,
    }
}

/// Changes settings, and says how that ended. Where it is not `Ok`, nothing changes.
pub fn make_change(alloc: Global, settings: &mut Settings, change: Change<'_>) -> Status
    ensures { IsChanged change.entry settings.old settings.new result }
{
    let (bytes, is_module) = match change {
        Change::Set(number, value) => return set(settings, number, value),
        Change::Constant(bytes) => (bytes, false),
        Change::Module(bytes) => (bytes, true),
    };
    let Ok(name) = str::from_utf8(bytes) else {
        return Status::NotUtf8;
    };
    let added = match is_module {
        true => settings.add_module(name),
        false => settings.add_constant(alloc, name),
    };
    match added {
        Ok(()) => Status::Ok,
        Err(_) => Status::NoMemory,
    }
}

//! Tests of the library: what no contract says and no list shows.
#![tactic(auto)]

#[cfg(test)]
mod allocation;
#[cfg(test)]
mod caller_settings;
#[cfg(test)]
mod fn_names;
#[cfg(test)]
mod libraries;
#[cfg(test)]
mod long_scripts;
#[cfg(test)]
mod lookups;
#[cfg(test)]
mod modules;
#[cfg(test)]
mod nesting;
#[cfg(test)]
mod optimizing;
#[cfg(test)]
mod plugged;
#[cfg(test)]
mod random_scripts;
#[cfg(test)]
mod readme;
#[cfg(test)]
mod script;
#[cfg(test)]
mod states;

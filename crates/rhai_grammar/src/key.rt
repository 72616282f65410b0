//! `FnKey`: the key under which a script's function is stored.

use std::rc::RcStr;

/// What tells a script's functions apart: no two of them have equal keys.
#[derive(Clone, PartialEq, Eq, Hash, Debug, Drop)]
pub struct FnKey {
    /// The type of the object that it is a method of, if there is one.
    pub this_type: Option<RcStr>,
    /// The function's name.
    pub name: RcStr,
    /// The number of its parameters.
    pub params: usize,
}

//! `NameIndex`: an index of a list of names. The time of a look-up does not grow with the list.

ghost use Rattle.std.specs.Prelude.{◌≡◌, ◌∷◌, ◌++◌, [], List, IsSome, OnErr, OnOk, Some, if◌then◌else◌};
ghost use Rattle.std.specs.Rc.{rc_str_bytes};
ghost use Rattle.rhai_lower.specs.Texts.{Text, same_text};
ghost use Rattle.rhai_lower.specs.NameIndexes.{Indexes, found_in};
ghost use Rattle.rhai_lower.specs.LatestNames.{latest_name};

use indexmap::IndexMap;
use std::alloc::{AllocError, Global};
use std::rc::RcStr;

/// An index of a list of names, from the oldest to the latest. The list itself is the caller's.
#[derive(Drop, Debug)]
pub struct NameIndex {
    // The place of the latest of each name, counted from 0 at the oldest of all.
    latest: IndexMap<RcStr, usize>,
    // For each place that of the latest before it that has the same name.
    previous: Vec<Option<usize>>,
}

impl NameIndex {
    /// The index of no names. Does not allocate.
    pub fn new(alloc: Global) -> Self
        ensures { Indexes result [] }
    {
        NameIndex {
            latest: IndexMap::new(alloc),
            previous: Vec::new(alloc),
        }
    }

    /// Adds a name, as the latest of all. Returns `AllocError` if memory runs out; then nothing changes.
    pub fn push(&mut self, name: RcStr) -> Result<(), AllocError>
        ensures ok { (names : List Text) → Indexes self.old names
            → OnOk result (Indexes self.new (names ++ rc_str_bytes name ∷ [])) }
        ensures err { (names : List Text) → Indexes self.old names → OnErr result (Indexes self.new names) }
    {
        let place = self.previous.len();
        // With capacity reserved for the place, nothing can fail once the name is in the map.
        self.previous.reserve(1)?;
        let previous = self.latest.insert(name, place)?;
        self.previous.push(previous)?;
        Ok(())
    }

    /// Drops the latest name of all, which the caller has to name. Does not allocate.
    pub fn pop(&mut self, name: &str)
        ensures { (names : List Text) → Indexes self.old (names ++ name.now ∷ []) → Indexes self.new names }
    {
        let Some(previous) = self.previous.pop() else {
            return;
        };
        match previous {
            Some(place) => set_place(&mut self.latest, name, place),
            None => {
                self.latest.swap_remove(name);
            }
        }
    }

    /// The place of the latest of this name, counted from 0 at the oldest of all; none if there is none. Does not
    /// allocate. The time does not grow with the number of names.
    pub fn latest(&self, name: &str) -> Option<usize>
        ensures { (names : List Text) → Indexes self.now names → result ≡ latest_name name.now names }
    {
        self.latest.get(name).copied()
    }
}

// Gives a name that is there another place. Does not allocate.
fn set_place(places: &mut IndexMap<RcStr, usize>, name: &str, place: usize)
    ensures { IsSome (found_in places.old name.now) → (other : Text) → found_in places.new other
        ≡ (if same_text name.now other then Some place else found_in places.old other) }
{
    if let Some(found) = places.get_mut(name) {
        *found = place;
    }
}

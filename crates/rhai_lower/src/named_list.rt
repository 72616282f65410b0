//! `NamedList`: a list of named items, which finds the latest item of a name. Where there are many items, an index
//! finds it.

ghost use Rattle.std.specs.Prelude.{◌≡◌, ◌==◌, ◌≤◌, ◌++◌, ◌∷◌, [], IfOk, OnErr, OnOk, length, map, take};
ghost use Rattle.std.specs.List.{list_any};
ghost use Rattle.std.specs.Rc.{rc_str_bytes};
ghost use Rattle.rhai_lower.specs.Texts.{Text, same_text};
ghost use Rattle.rhai_lower.specs.LatestNames.{latest_name};
ghost use Rattle.rhai_lower.specs.NameIndexes.{Indexes, IsIndexed};

use crate::expr::{Expr, Ident};
use crate::name_index::NameIndex;
use crate::position::Position;
use std::alloc::{AllocError, Global};
use std::marker::Model;
use std::rc::RcStr;

/// What has a name.
pub trait HasName {
    /// The bytes of the name.
    ghost text: { Self → Text };

    /// The name. Does not allocate.
    fn name(&self) -> &RcStr
        ensures { rc_str_bytes result.now ≡ text self.now };
}

/// A name is its own.
impl HasName for RcStr {
    ghost text = { rc_str_bytes };

    fn name(&self) -> &RcStr {
        self
    }
}

/// The name of a use is the name that is used.
impl HasName for (RcStr, Position) {
    ghost text = { λ u. rc_str_bytes u.0 };

    fn name(&self) -> &RcStr {
        &self.0
    }
}

/// The name of a property is its key.
impl HasName for (Ident, Expr) {
    ghost text = { λ p. rc_str_bytes p.0.name };

    fn name(&self) -> &RcStr {
        &self.0.name
    }
}

// The number of items up to which a list has no index, since a walk over so few is as fast.
const FEW: usize = 8;

/// A list of what has a name, from the oldest item to the latest. An index counts from 0 at the oldest.
#[derive(Drop, Debug)]
pub struct NamedList<T: HasName> {
    // Who changes an item here has to prove that its name stays.
    pub(crate) items: Vec<T>,
    // The index of the names, once an item was added to more than a few.
    index: Option<Box<NameIndex>>,
}

impl<T: HasName> Model for NamedList<T> {
    ghost use Rattle.std.specs.Prelude.{List, map};
    ghost use Rattle.rhai_lower.specs.NameIndexes.{IsIndexed};

    ghost Value = { List T };

    ghost view = { λ l. l.items.items };

    ghost invariant = { λ l. IsIndexed l.index (map T.text l.items.items) };
}

impl<T: HasName> NamedList<T> {
    /// A list without items. Does not allocate.
    pub fn new(alloc: Global) -> Self
        ensures { result ≡ [] }
    {
        NamedList::from_items(Vec::new(alloc))
    }

    /// The list of these items. Does not allocate: a list has no index until `push` adds an item to more than a few.
    pub fn from_items(items: Vec<T>) -> Self
        ensures { result ≡ items.items }
    {
        NamedList { items, index: None }
    }

    /// The number of items. Does not allocate.
    pub fn len(&self) -> usize
        ensures { result ≡ length self.now }
    {
        self.items.len()
    }

    /// Whether there are no items. Does not allocate.
    pub fn is_empty(&self) -> bool
        ensures { result ≡ (length self.now == 0) }
    {
        self.items.is_empty()
    }

    /// The items. Does not allocate.
    pub fn items(&self) -> &[T]
        ensures { result.now ≡ self.now }
    {
        self.items.as_slice()
    }

    /// The items alone. Does not allocate.
    pub fn into_items(self) -> Vec<T>
        ensures { result.items ≡ self }
    {
        self.items
    }

    /// The index of the latest item of this name; none if no item has the name. Does not allocate. Where `push` added
    /// an item to more than a few, the time does not grow with the list.
    pub fn latest(&self, name: &str) -> Option<usize>
        ensures { result ≡ latest_name name.now (map T.text self.now) }
    {
        match &self.index {
            Some(index) => index.latest(name),
            None => find_latest(&self.items, name),
        }
    }

    /// Whether an item has this name. Does not allocate. The time is that of `latest`.
    #[tactic(auto, using(crate::proofs::NamedListLemmas::latest_there))]
    pub fn has_name(&self, name: &str) -> bool
        ensures { result ≡ list_any (λ n. same_text n name.now) (map T.text self.now) }
    {
        self.latest(name).is_some()
    }
}

impl<T: HasName + Drop> NamedList<T> {
    /// Adds an item, as the latest. Returns `AllocError` if memory runs out; then the list is unchanged.
    pub fn push(&mut self, item: T) -> Result<(), AllocError>
        ensures ok { OnOk result (self.new ≡ self.old ++ item ∷ []) }
        ensures err { OnErr result (self.new ≡ self.old) }
    {
        if self.items.len() < FEW && self.index.is_none() {
            self.items.push(item)?;
            return Ok(());
        }
        push_indexed(&mut self.items, &mut self.index, item)
    }

    /// Drops all items except the oldest `len`, which a caller has to prove is at most the number of items. Does not
    /// allocate.
    pub fn rewind(&mut self, len: usize)
        requires { len ≤ length self.old }
        ensures { self.new ≡ take len self.old }
    {
        rewind_index(&mut self.index, &self.items, len);
        self.items.truncate(len);
    }
}

/// The index of the latest of these items that has this name, by a walk from the latest; none if no item has the name.
/// Does not allocate.
pub fn find_latest<T: HasName>(items: &[T], name: &str) -> Option<usize>
    ensures { result ≡ latest_name name.now (map T.text items.now) }
{
    for i in (0..items.len()).rev() {
        if items[i].name().as_str() == name {
            return Some(i);
        }
    }
    None
}

/// Whether one of these items has this name, by a walk. Does not allocate.
#[tactic(auto, using(crate::proofs::NamedListLemmas::latest_there))]
pub fn is_named<T: HasName>(items: &[T], name: &str) -> bool
    ensures { result ≡ list_any (λ n. same_text n name.now) (map T.text items.now) }
{
    find_latest(items, name).is_some()
}

// Adds an item, and its name to the index, which is made if there is none. Returns `AllocError` if memory runs out;
// then nothing changes, but that an index may be there.
fn push_indexed<T: HasName + Drop>(
    items: &mut Vec<T>,
    index: &mut Option<Box<NameIndex>>,
    item: T,
) -> Result<(), AllocError>
    requires { IsIndexed index.old (map T.text items.old.items) }
    ensures ok { OnOk result (items.new.items ≡ items.old.items ++ item ∷ []) }
    ensures err { OnErr result (items.new.items ≡ items.old.items) }
    ensures indexed { IsIndexed index.new (map T.text items.new.items) }
{
    let name = item.name().clone()?;
    // With capacity reserved for the item, nothing can fail once its name is in the index.
    items.reserve(1)?;
    push_name(index, items, name)?;
    items.push(item)?;
    Ok(())
}

// Adds the name of an item that comes next to the index, which is made if there is none. Returns `AllocError` if memory
// runs out; then nothing changes.
fn push_name<T: HasName>(
    index: &mut Option<Box<NameIndex>>,
    items: &Vec<T>,
    name: RcStr,
) -> Result<(), AllocError>
    requires { IsIndexed index.old (map T.text items.now.items) }
    ensures ok { OnOk result (IsIndexed index.new (map T.text items.now.items ++ rc_str_bytes name ∷ [])) }
    ensures err { OnErr result (IsIndexed index.new (map T.text items.now.items)) }
{
    match index {
        Some(index) => index.push(name),
        None => {
            *index = Some(new_index(*items.allocator(), items, name)?);
            Ok(())
        }
    }
}

// An index of the names of these items and of one more name. Returns `AllocError` if memory runs out.
fn new_index<T: HasName>(
    alloc: Global,
    items: &[T],
    name: RcStr,
) -> Result<Box<NameIndex>, AllocError>
    ensures { IfOk result (λ index. Indexes index.value (map T.text items.now ++ rc_str_bytes name ∷ [])) }
{
    let mut index = NameIndex::new(alloc);
    for item in items {
        index.push(item.name().clone()?)?;
    }
    index.push(name)?;
    Ok(Box::new(alloc, index)?)
}

// Drops the names of all items from the index, if there is one, except those of the oldest `len`. Does not allocate.
fn rewind_index<T: HasName>(index: &mut Option<Box<NameIndex>>, items: &[T], len: usize)
    requires within { len ≤ length items.now }
    requires indexed { IsIndexed index.old (map T.text items.now) }
    ensures { IsIndexed index.new (map T.text (take len items.now)) }
{
    if let Some(index) = index {
        drop_names(index, items, len);
    }
}

// Drops the names of all items from the index except those of the oldest `len`. Does not allocate.
fn drop_names<T: HasName>(index: &mut NameIndex, items: &[T], len: usize)
    requires within { len ≤ length items.now }
    requires indexed { Indexes index.old (map T.text items.now) }
    ensures { Indexes index.new (map T.text (take len items.now)) }
{
    for i in (len..items.len()).rev() {
        index.pop(items[i].name().as_str());
    }
}

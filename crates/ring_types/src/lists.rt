ghost use Rattle.std.specs.Prelude.{◌≡◌, ◌++◌, ◌∷◌, [], ◌<◌, ◌↔◌, IfOk, IsTrue, OnOk, OnErr, OnSome, Some, drop, length, slice_get, slice_set, take};
ghost use Rattle.std.specs.Option.{option_copied};

use crate::duplication::{Duplicate, Memory};
use std::alloc::Global;
use std::marker::Model;
use std::mem;

/// The first `count` items, lent; all if there are fewer.
pub fn first_of<T>(items: &[T], count: u64) -> &[T]
    ensures { result.now ≡ take count items.now }
{
    match items.get(..count as usize) {
        Some(first) => first,
        None => items,
    }
}

/// The items after the first `count`, lent; none if there are fewer.
pub fn after<T>(items: &[T], count: u64) -> &[T]
    ensures { result.now ≡ drop count items.now }
{
    match items.get(count as usize..) {
        Some(rest) => rest,
        None => &[],
    }
}

/// A `Vec` that contracts see as the list of its items, at any depth, so that values that hold one
/// compare as plain data.
#[derive(Debug, Drop)]
pub struct List<T> {
    items: Vec<T>,
}

impl<T> Model for List<T> {
    ghost use Rattle.std.specs.Prelude.{List};
    ghost use Rattle.std.specs.Coded.{coded_list};

    ghost Value = { List T };

    ghost coded = { coded_list T.code };

    ghost view = { λ it. it.items.items };
}

impl<T> List<T> {
    /// The empty list. It takes no memory until an item comes.
    pub fn new(alloc: Global) -> List<T>
        ensures { result ≡ [] }
    {
        List {
            items: Vec::new(alloc),
        }
    }

    /// The items of `items`, in order. Takes no memory.
    pub fn from_vec(items: Vec<T>) -> List<T>
        ensures { result ≡ items.items }
    {
        List { items }
    }

    /// The items, lent. Takes no memory.
    pub fn as_slice(&self) -> &[T]
        ensures { result.now ≡ self.now }
    {
        self.items.as_slice()
    }

    /// How many items there are.
    pub fn len(&self) -> usize
        ensures { result ≡ length self.now }
    {
        self.items.len()
    }

    /// Whether there is no item.
    pub fn is_empty(&self) -> bool
        ensures { IsTrue result ↔ (self.now ≡ []) }
    {
        self.items.is_empty()
    }

    /// The item at a place, counted from 0.
    pub fn get(&self, at: usize) -> Option<&T>
        ensures value { option_copied result ≡ slice_get self.now at }
        ensures within { OnSome result (at < length self.now) }
    {
        self.items.get(at)
    }

    /// The first `count` items, lent; all if there are fewer.
    pub fn prefix(&self, count: u64) -> &[T]
        ensures { result.now ≡ take count self.now }
    {
        first_of(self.items.as_slice(), count)
    }

    /// The items after the first `count`, lent; none if there are fewer.
    pub fn suffix(&self, count: u64) -> &[T]
        ensures { result.now ≡ drop count self.now }
    {
        after(self.items.as_slice(), count)
    }
}

impl<T: Drop> List<T> {
    /// The list of one item.
    pub fn of_one(alloc: Global, item: T) -> Result<List<T>, Memory>
        ensures { IfOk result (λ it. it ≡ item ∷ []) }
    {
        let mut list = List::new(alloc);
        list.push(item)?;
        Ok(list)
    }

    /// Puts an item at the end. Without memory the list stays as it was.
    pub fn push(&mut self, item: T) -> Result<(), Memory>
        ensures ok { OnOk result (self.new ≡ self.old ++ item ∷ []) }
        ensures err { OnErr result (self.new ≡ self.old) }
    {
        self.items.push(item)?;
        Ok(())
    }

    /// Puts an item in the place of another, and gives that one. Takes no memory.
    pub fn replace(&mut self, at: usize, item: T) -> T
        requires { at < length self.old }
        ensures set { self.new ≡ slice_set self.old at item }
        ensures was { slice_get self.old at ≡ Some result }
    {
        mem::replace(&mut self.items[at], item)
    }

    /// Keeps the first `length` items, or all if there are fewer. Takes no memory.
    pub fn truncate(&mut self, length: u64)
        ensures { self.new ≡ take length self.old }
    {
        self.items.truncate(length as usize);
    }

    /// Moves the items of `more` to the end. Without memory the list stays as it was.
    pub fn append(&mut self, more: List<T>) -> Result<(), Memory>
        ensures ok { OnOk result (self.new ≡ self.old ++ more) }
        ensures err { OnErr result (self.new ≡ self.old) }
    {
        let List { mut items } = more;
        self.items.append(&mut items)
    }
}

impl<T: Copy> List<T> {
    /// Puts the items at the end, in order. Without memory the list stays as it was.
    pub fn extend_from_slice(&mut self, items: &[T]) -> Result<(), Memory>
        ensures ok { OnOk result (self.new ≡ self.old ++ items.now) }
        ensures err { OnErr result (self.new ≡ self.old) }
    {
        self.items.extend_from_slice(items)?;
        Ok(())
    }
}

impl<T: Duplicate + Drop> List<T> {
    /// Puts copies of the items at the end, in order. Without memory some of them may stand there.
    pub fn extend_copies(&mut self, alloc: Global, items: &[T]) -> Result<(), Memory>
        ensures ok { OnOk result (self.new ≡ self.old ++ items.now) }
        ensures err { OnErr result (take (length self.old) self.new ≡ self.old) }
    {
        for item in items {
            self.push(item.copy(alloc)?)?;
        }
        Ok(())
    }
}

impl<T: Duplicate + Drop> Duplicate for List<T> {
    fn copy(&self, alloc: Global) -> Result<List<T>, Memory> {
        let mut list = List {
            items: Vec::with_capacity(alloc, self.items.len())?,
        };
        list.extend_copies(alloc, self.items.as_slice())?;
        Ok(list)
    }
}

impl<T: PartialEq> PartialEq for List<T> {
    ghost use Rattle.std.specs.Cmp.Lexicographic.{pointwise, lists_per};

    ghost eq = { λ x y. pointwise T.eq x y };

    ghost laws = { lists_per T.laws };

    fn eq(&self, other: &List<T>) -> bool {
        self.items == other.items
    }
}

impl<T: Eq> Eq for List<T> {
    ghost use Rattle.std.specs.Cmp.Lexicographic.{lists_equiv};

    ghost laws = { lists_equiv T.Eq.laws };
}

//! The list that every list type of the project is made of.

ghost use Rattle.std.specs.Prelude.{◌≡◌, ◌==◌, ◌<◌, ◌^◌, ◌++◌, [], ◌∷◌, length, slice_get};
ghost use Rattle.std.specs.Prelude.{slice_set, reverse, take, Some, OnOk, OnErr, IfOk, MatchOption};
ghost use Rattle.std.specs.Iterator.Adapters.{IterYieldsInOrder, IterYieldsInReverse};
ghost use Rattle.std.specs.Iterator.Runs.{EveryRun, ItemsMapTo, ItemsAre};
ghost use Rattle.std.specs.Slice.Iter.{iter_rest, iter_steps};
ghost use Rattle.std.specs.Vec.Iter.{into_iter_items, into_iter_len, into_iter_steps};

use crate::no_memory::NoMemory;
use std::alloc::Global;
use std::marker::Model;
use std::ops::DerefSlice;
use std::{slice, vec};

/// Bytes, as an event carries them.
pub type Octets = Sequence<u8>;

/// Numbers of bindings, handlers, guards or endpoints.
pub type Numbers = Sequence<u16>;

/// Words of 64 bits.
pub type Words = Sequence<u64>;

/// Items in order. Contracts see the list of the items.
#[derive(Drop, Debug)]
pub struct Sequence<T> {
    items: Vec<T>,
}

impl<T> Model for Sequence<T> {
    ghost use Rattle.std.specs.Prelude.{List};

    ghost Value = { List T };

    ghost view = { λ s. s.items.items };
}

impl<T: PartialEq> PartialEq for Sequence<T> {
    ghost use Rattle.std.specs.Cmp.Lexicographic.{pointwise, lists_per};

    ghost eq = { pointwise T.eq };

    ghost laws = { lists_per T.laws };

    fn eq(&self, other: &Sequence<T>) -> bool {
        self.items == other.items
    }
}

impl<T> Sequence<T> {
    /// The empty list, which takes no memory until an item is added.
    pub fn new(alloc: Global) -> Self
        ensures { result ≡ [] }
    {
        Sequence {
            items: Vec::new(alloc),
        }
    }

    /// The empty list with room for just so many items, which then take no memory.
    pub fn with_capacity(alloc: Global, items: usize) -> Result<Self, NoMemory>
        ensures { IfOk result (λ list. list ≡ []) }
    {
        Ok(Sequence {
            items: Vec::with_capacity(alloc, items)?,
        })
    }

    /// The list of these items, which takes no memory.
    pub fn from_vec(items: Vec<T>) -> Self
        ensures { result ≡ items.items }
    {
        Sequence { items }
    }

    /// The items, which takes no memory.
    pub fn into_vec(self) -> Vec<T>
        ensures { result.items ≡ self }
    {
        self.items
    }

    /// The allocator that the list was made with.
    pub fn allocator(&self) -> Global {
        *self.items.allocator()
    }

    /// The number of items.
    pub fn len(&self) -> usize
        ensures { result ≡ length self.now }
    {
        self.items.len()
    }

    /// Whether there is no item.
    pub fn is_empty(&self) -> bool
        ensures { result ≡ (length self.now == 0) }
    {
        self.items.is_empty()
    }

    /// The item at a place that is there, counted from 0.
    pub fn get(&self, at: usize) -> &T
        requires { at < length self.now }
        ensures { slice_get self.now at ≡ Some result.now }
    {
        &self.items[at]
    }

    /// All items in order.
    pub fn as_slice(&self) -> &[T]
        ensures { result.now ≡ self.now }
    {
        self.items.as_slice()
    }

    /// The items in order, one after another.
    pub fn iter(&self) -> slice::Iter<'_, T>
        ensures rest { iter_rest result ≡ self.now }
        ensures len { length (iter_rest result) ≡ length self.now }
        ensures bound { length (iter_rest result) < 2 ^ 64 }
        ensures runs { IterYieldsInOrder T }
        ensures runs_back { IterYieldsInReverse T }
    {
        self.items.iter()
    }
}

impl<T> DerefSlice for Sequence<T> {
    type Elem = T;

    ghost deref_gives = { λ s shown. shown ≡ s };

    fn deref(&self) -> &[T] {
        self.as_slice()
    }
}

impl<'a, T> IntoIterator for &'a Sequence<T> {
    type Item = &'a T;

    type IntoIter = slice::Iter<'a, T>;

    ghost into_iter_gives = { λ s it.
        (iter_rest it ≡ s.now)
        × (length (iter_rest it) < 2 ^ 64)
        × EveryRun (iter_steps {A = T}) (λ p. ItemsMapTo p (λ y. y.now) (iter_rest p.from)) };

    fn into_iter(self) -> slice::Iter<'a, T> {
        self.iter()
    }
}

impl<T: Drop> IntoIterator for Sequence<T> {
    type Item = T;

    type IntoIter = vec::IntoIter<T, Global>;

    ghost use Rattle.std.specs.declared.alloc.Global.{Global};

    ghost into_iter_gives = { λ s it.
        (into_iter_items it ≡ s)
        × (into_iter_len it ≡ length s)
        × (into_iter_len it < 2 ^ 64)
        × EveryRun (into_iter_steps {X = T} {Z = Global})
        (λ p. ItemsAre p (into_iter_items p.from)) };

    fn into_iter(self) -> vec::IntoIter<T, Global> {
        self.items.into_iter()
    }
}

impl<T: Drop> Sequence<T> {
    /// Makes room for so many more items, which then take no memory. The items are unchanged.
    pub fn reserve(&mut self, more: usize) -> Result<(), NoMemory>
        ensures { self.new ≡ self.old }
    {
        self.items.reserve(more)?;
        Ok(())
    }

    /// Lets go of the room that no item takes. The items are unchanged; it takes time linear in them.
    pub fn shrink_to_fit(&mut self)
        ensures { self.new ≡ self.old }
    {
        self.items.shrink_to_fit();
    }

    /// Puts the item in the place of the one that is there, counted from 0.
    pub fn replace(&mut self, at: usize, item: T)
        requires { at < length self.old }
        ensures { self.new ≡ slice_set self.old at item }
    {
        self.items[at] = item;
    }

    /// Turns the list round: the last item becomes the first one.
    #[inline]
    pub fn reverse(&mut self)
        ensures { self.new ≡ reverse self.old }
    {
        self.items.reverse();
    }

    /// Takes the last item out; `None` exactly where the list is empty. It takes no memory, and the list keeps its
    /// room.
    #[inline]
    pub fn pop(&mut self) -> Option<T>
        ensures { MatchOption result
            ((self.old ≡ []) × (self.new ≡ []))
            (λ last. self.old ≡ self.new ++ last ∷ []) }
    {
        if self.items.is_empty() {
            return None;
        }
        self.items.pop()
    }

    /// Takes all items out. The list keeps its room.
    #[inline]
    pub fn clear(&mut self)
        ensures { self.new ≡ [] }
    {
        self.items.clear();
    }

    /// Keeps the first `len` items and drops the rest; no effect where there are no more. The list keeps its room.
    #[inline]
    pub fn truncate(&mut self, len: usize)
        ensures { self.new ≡ take len self.old }
    {
        self.items.truncate(len);
    }

    /// Adds the item at the end. After want of memory the list is unchanged, and the item is dropped.
    #[inline(always)]
    pub fn push(&mut self, item: T) -> Result<(), NoMemory>
        ensures ok { OnOk result (self.new ≡ self.old ++ item ∷ []) }
        ensures err { OnErr result (self.new ≡ self.old) }
    {
        self.items.reserve(1)?;
        self.items.push_reserved(item);
        Ok(())
    }

    /// Moves all items of the other list behind those of this one, and leaves the other empty.
    /// After want of memory both are unchanged.
    pub fn append(&mut self, other: &mut Self) -> Result<(), NoMemory>
        ensures ok { OnOk result ((self.new ≡ self.old ++ other.old) × (other.new ≡ [])) }
        ensures err { OnErr result ((self.new ≡ self.old) × (other.new ≡ other.old)) }
    {
        self.items.append(&mut other.items)?;
        Ok(())
    }

    /// Takes the first item out; `None` exactly where the list is empty. It takes no memory, and moves the
    /// rest to the front: so a long list is walked by `iter` or taken apart by `into_iter`.
    pub fn take_first(&mut self) -> Option<T>
        ensures { MatchOption result
            ((self.old ≡ []) × (self.new ≡ []))
            (λ first. self.old ≡ first ∷ self.new) }
    {
        if self.items.is_empty() {
            return None;
        }
        Some(self.items.remove(0))
    }
}

impl<T: Clone> Sequence<T> {
    /// The list of equal items, where a clone of an item is equal to it.
    pub fn from_slice(alloc: Global, items: &[T]) -> Result<Self, NoMemory>
        ensures { IfOk result (λ copy. ((x y : T) → T.is_clone x y → y ≡ x) → copy ≡ items.now) }
    {
        Ok(Sequence {
            items: items.to_vec(alloc)?,
        })
    }

    /// Adds equal items at the end, where a clone of an item is equal to it. After want of memory the list is
    /// unchanged.
    pub fn extend_from_slice(&mut self, items: &[T]) -> Result<(), NoMemory>
        ensures ok { OnOk result (
            ((x y : T) → T.is_clone x y → y ≡ x) → self.new ≡ self.old ++ items.now) }
        ensures err { OnErr result (self.new ≡ self.old) }
    {
        self.items.extend_from_slice(items)?;
        Ok(())
    }
}

impl Sequence<u8> {
    /// A copy of the bytes.
    pub fn from_bytes(alloc: Global, bytes: &[u8]) -> Result<Self, NoMemory>
        ensures { IfOk result (λ copy. copy ≡ bytes.now) }
    {
        Self::from_slice(alloc, bytes)
    }

    /// An equal list.
    pub fn copy(&self) -> Result<Self, NoMemory>
        ensures { IfOk result (λ copy. copy ≡ self.now) }
    {
        Self::from_bytes(self.allocator(), self)
    }
}

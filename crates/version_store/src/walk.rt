//! Objects whose keys stand next to each other, one after another.
ghost use Rattle.std.specs.Prelude.{◌≡◌, ◌<◌, ◌==◌, Some, length, slice_get};
ghost use Rattle.std.specs.Option.{option_copied};
ghost use Rattle.version_store.specs.State.{state, in_span};
ghost use Rattle.version_store.specs.Index.{IsPresentIndex};

use crate::index;
use crate::item::{Item, Span};
use crate::write::Entry;
use std::marker::Model;

/// Objects that stand, whose keys stand next to each other. Contracts see them as a list, in order of key.
///
/// To begin costs a search; to read an object costs none.
#[derive(Drop)]
pub struct Walk<'a, O: Item> {
    entries: &'a [Entry<O>],
    // The versions of the objects that stand, in order of key.
    present: &'a [u64],
    // The place of the first object among the present ones, and the one behind the last.
    first: usize,
    end: usize,
}

impl<'a, O: Item> Model for Walk<'a, O> {
    ghost use Rattle.std.specs.Prelude.{List, ◌-◌, ◌≤◌, length, take, drop};
    ghost use Rattle.version_store.specs.State.{state};
    ghost use Rattle.version_store.specs.Index.{IsPresentIndex};

    ghost Value = { List O };

    ghost view = { λ w. take (w.end - w.first) (drop w.first (state O.key O.Key.cmp w.entries.now)) };

    ghost invariant = { λ w. record { index : IsPresentIndex O.Item O.Key.cmp w.entries.now w.present.now; ordered : w.first ≤ w.end; within : w.end ≤ length w.present.now } };
}

impl<'a, O: Item> Walk<'a, O> {
    /// The objects whose keys are in the span.
    pub fn new<S: Span<O>>(entries: &'a [Entry<O>], present: &'a [u64], span: &S) -> Walk<'a, O>
        requires { IsPresentIndex O.Item O.Key.cmp entries.now present.now }
        ensures { result ≡ in_span O.key (S.side span.now) (state O.key O.Key.cmp entries.now) }
    {
        let (first, end) = index::range_of(entries, present, span);
        Walk {
            entries,
            present,
            first,
            end,
        }
    }

    /// How many objects they are.
    pub fn len(&self) -> usize
        ensures { result ≡ length self.now }
    {
        self.end - self.first
    }

    /// Whether there is none.
    pub fn is_empty(&self) -> bool
        ensures { result ≡ (length self.now == 0) }
    {
        self.len() == 0
    }

    /// The object at a place, counted from 0. The place lies below the count.
    pub fn at(&self, place: usize) -> &'a O
        requires { place < length self.now }
        ensures { slice_get self.now place ≡ Some result.now }
    {
        match index::object_at(self.entries, self.present, Ok(self.first + place)) {
            Some(object) => object,
            None => unreachable!(),
        }
    }

    /// The object at a place, counted from 0, if there is one.
    pub fn get(&self, place: usize) -> Option<&'a O>
        ensures { option_copied result ≡ slice_get self.now place }
    {
        if place < self.len() {
            Some(self.at(place))
        } else {
            None
        }
    }
}

//! Values under names: the members of an object, and other tables of the same form.
ghost use Rattle.std.specs.Prelude.{◌≡◌, ◌↔◌, [], ◌∷◌, ◌++◌, IsTrue, IfOk, OnOk, OnErr, ◌<◌, length, slice_get, Some, option_map};
ghost use Rattle.json_tree.specs.Tree.{find, put_entry, names_of, names_rise, is_after_all};
ghost use Rattle.json_tree.specs.Places.{GoesTo};

use crate::copied::Copied;
use crate::seq::Seq;
use crate::text::Text;
use crate::value::Json;
use std::alloc::{AllocError, Global};
use std::cmp::Ordering;

/// Values under names: a list of pairs of a name and a value.
///
/// In a table that was made by [`Table::new`] and filled by [`Table::put`] the names rise strictly by bytes, so that
/// each name is there once. [`Table::add`] keeps this for a name that comes after all others.
#[derive(Clone, Debug, Drop, PartialEq)]
pub struct Table<T> {
    /// The pairs, in their order.
    pub entries: Seq<(Text, T)>,
}

/// The members of an object.
pub type Members = Table<Json>;

// Where the pair of a name goes: to the place of the pair of that name, or before the pair at a place.
enum Place {
    At(usize),
    Before(usize),
}

impl<T> Table<T> {
    /// A table with no pairs, which takes no memory yet.
    pub fn new(alloc: Global) -> Table<T>
        ensures { result.entries ≡ [] }
    {
        Table {
            entries: Seq::new(alloc),
        }
    }

    /// A table with no pairs that takes its memory for so many at once. Contracts see the pairs alone.
    pub fn with_capacity(alloc: Global, capacity: usize) -> Result<Table<T>, AllocError>
        ensures { IfOk result (λ table. table.entries ≡ []) }
    {
        Ok(Table {
            entries: Seq::with_capacity(alloc, capacity)?,
        })
    }

    /// The allocator of its memory.
    pub fn allocator(&self) -> Global {
        self.entries.allocator()
    }

    /// The number of pairs.
    pub fn len(&self) -> usize
        ensures { result ≡ length self.now.entries }
    {
        self.entries.len()
    }

    /// Whether it has no pairs.
    pub fn is_empty(&self) -> bool
        ensures { IsTrue result ↔ (self.now.entries ≡ []) }
    {
        self.entries.is_empty()
    }

    /// The pairs, in their order.
    pub fn entries(&self) -> &[(Text, T)]
        ensures { result.now ≡ self.now.entries }
    {
        self.entries.as_slice()
    }

    /// The name and the value at a place, counted from 0.
    pub fn at(&self, place: usize) -> (&Text, &T)
        requires { place < length self.now.entries }
        ensures { slice_get self.now.entries place ≡ Some (result.0.now, result.1.now) }
    {
        let entry = self.entries.at(place);
        (&entry.0, &entry.1)
    }

    /// The value of the first pair with the name.
    pub fn get(&self, name: &str) -> Option<&T>
        ensures { option_map (λ value. value.now) result ≡ find name.now self.now.entries }
    {
        for entry in self.entries.as_slice() {
            if entry.0.as_str() == name {
                return Some(&entry.1);
            }
        }
        None
    }

    // Where a value under the name goes.
    fn place_of(&self, name: &str) -> Place
        ensures { GoesTo name.now self.now.entries result }
    {
        'places: for place in 0..self.entries.len() {
            match name.cmp(self.entries.at(place).0.as_str()) {
                Ordering::Greater => {}
                Ordering::Equal => return Place::At(place),
                Ordering::Less => return Place::Before(place),
            }
        }
        Place::Before(self.entries.len())
    }
}

impl<T: Drop> Table<T> {
    /// Puts a value under a name: in place of the value that the name has, or else between the names before and after
    /// it. Names that rise strictly go on to do so.
    pub fn put(&mut self, name: Text, value: T) -> Result<(), AllocError>
        ensures ok { OnOk result (self.new.entries ≡ put_entry name value self.old.entries) }
        ensures err { OnErr result (self.new.entries ≡ self.old.entries) }
        ensures order { IsTrue (names_rise (names_of self.old.entries)) → IsTrue (names_rise (names_of self.new.entries)) }
    {
        match self.place_of(name.as_str()) {
            Place::At(place) => {
                self.entries.set(place, (name, value));
                Ok(())
            }
            Place::Before(place) => self.entries.insert(place, (name, value)),
        }
    }

    /// Puts a value under a name, as [`Table::put`] does, and copies the name into new memory of the table's allocator.
    pub fn put_named(&mut self, name: &str, value: T) -> Result<(), AllocError>
        ensures ok { OnOk result (self.new.entries ≡ put_entry name.now value self.old.entries) }
        ensures err { OnErr result (self.new.entries ≡ self.old.entries) }
        ensures order { IsTrue (names_rise (names_of self.old.entries)) → IsTrue (names_rise (names_of self.new.entries)) }
    {
        let name = Text::new(self.allocator(), name)?;
        self.put(name, value)
    }

    /// Adds a pair at the end, without a search. Names that rise strictly go on to do so where the new one comes after
    /// all of them.
    pub fn add(&mut self, name: Text, value: T) -> Result<(), AllocError>
        ensures ok { OnOk result (self.new.entries ≡ self.old.entries ++ (name, value) ∷ []) }
        ensures err { OnErr result (self.new.entries ≡ self.old.entries) }
        ensures order { IsTrue (names_rise (names_of self.old.entries))
            → IsTrue (is_after_all name (names_of self.old.entries))
            → IsTrue (names_rise (names_of self.new.entries)) }
    {
        self.entries.push((name, value))
    }
}

impl<T: Copied> Table<T> {
    /// A copy in new memory.
    pub fn copy(&self, alloc: Global) -> Result<Table<T>, AllocError>
        ensures { IfOk result (λ copy. copy ≡ self.now) }
    {
        let mut copies = Table::with_capacity(alloc, self.len())?;
        for entry in self.entries() {
            let name = entry.0.copy(alloc)?;
            let value = entry.1.copy(alloc)?;
            copies.add(name, value)?;
        }
        Ok(copies)
    }
}

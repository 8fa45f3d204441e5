//! Searches in lists of versions that are in order of key, and the versions on a kind.
ghost use Rattle.std.specs.Prelude.{◌≡◌, ◌+◌, ◌-◌, ◌<◌, ◌≤◌, ◌^◌, Some, [], ◌∷◌, ◌++◌, length, slice_get, slice_index, take, drop, map, cond, IfOk};
ghost use Rattle.std.specs.Option.{option_copied};
ghost use Rattle.std.specs.Vec.{vec_len, vec_capacity};
ghost use Rattle.version_store.specs.State.{state, find, of_kind, in_span, versions_of};
ghost use Rattle.version_store.specs.Journal.{last_version, changes};
ghost use Rattle.version_store.specs.Index.{IsIndex, IsPresentIndex, keys_at, leading, search_in, IsPlaceIn, found, version_found, put_at, removed_at, row_key, row_version, last_rows};

use crate::cut::{Below, BelowKey, Cut, OfKind, UpTo};
use crate::item::{Item, SearchKey, Span};
use crate::write::Entry;
use std::alloc::{AllocError, Global};
use std::cmp::Ordering;

/// A key as a whole, as what a search is for.
#[derive(Drop)]
pub struct WholeKey<'a, O: Item>(pub &'a O::Key);

impl<'a, O: Item> SearchKey<O> for WholeKey<'a, O> {
    ghost sought = { λ sought. sought.0.now };

    fn compare(&self, key: &O::Key) -> Ordering {
        key.cmp(self.0)
    }
}

/// The entry of the version at a place.
fn entry_at<'a, O: Item>(entries: &'a [Entry<O>], versions: &[u64], place: usize) -> &'a Entry<O>
    requires index { IsIndex O.Key.cmp entries.now versions.now }
    requires within { place < length versions.now }
    ensures entry { slice_get entries.now (slice_index versions.now place - 1) ≡ Some result.now }
    ensures key { slice_get (keys_at entries.now versions.now) place ≡ Some result.now.key }
{
    &entries[versions[place] as usize - 1]
}

/// How many of the versions' keys are before the cut.
fn place_of<O: Item, C: Cut<O>>(entries: &[Entry<O>], versions: &[u64], cut: &C) -> usize
    requires { IsIndex O.Key.cmp entries.now versions.now }
    ensures place { result ≡ leading (C.before cut.now) (keys_at entries.now versions.now) }
    ensures within { result ≤ length versions.now }
{
    let mut low = 0;
    let mut high = versions.len();
    while low < high {
        let middle = low + (high - low) / 2;
        let entry = entry_at(entries, versions, middle);
        if cut.is_before(&entry.key) {
            low = middle + 1;
        } else {
            high = middle;
        }
    }
    low
}

/// The place of the key among the versions' keys, or the place where it would go.
pub fn search<O: Item, S: SearchKey<O>>(
    entries: &[Entry<O>],
    versions: &[u64],
    sought: &S,
) -> Result<usize, usize>
    requires { IsIndex O.Key.cmp entries.now versions.now }
    ensures place { result ≡ search_in O.Key.cmp (S.sought sought.now) (keys_at entries.now versions.now) }
    ensures within { IsPlaceIn result (length versions.now) }
{
    let place = place_of(entries, versions, &BelowKey(sought));
    if place < versions.len()
        && sought
            .compare(&entry_at(entries, versions, place).key)
            .is_eq()
    {
        Ok(place)
    } else {
        Err(place)
    }
}

/// The object of the version at a place, if the key that was searched for is there.
pub fn object_at<'a, O: Item>(
    entries: &'a [Entry<O>],
    present: &[u64],
    place: Result<usize, usize>,
) -> Option<&'a O>
    requires index { IsPresentIndex O.Item O.Key.cmp entries.now present.now }
    requires within { IsPlaceIn place (length present.now) }
    ensures { option_copied result ≡ found (state O.key O.Key.cmp entries.now) place }
{
    match place {
        Ok(place) => entry_at(entries, present, place).object.as_ref(),
        Err(_) => None,
    }
}

/// The version at a place, if the key that was searched for is there, or 0.
pub fn version_at(versions: &[u64], place: Result<usize, usize>) -> u64
    requires { IsPlaceIn place (length versions.now) }
    ensures { result ≡ version_found versions.now place }
{
    match place {
        Ok(place) => versions[place],
        Err(_) => 0,
    }
}

/// The object of the key that is sought, if one stands.
pub fn find<'a, O: Item, S: SearchKey<O>>(
    entries: &'a [Entry<O>],
    present: &[u64],
    sought: &S,
) -> Option<&'a O>
    requires { IsPresentIndex O.Item O.Key.cmp entries.now present.now }
    ensures { option_copied result ≡ find O.key O.Key.cmp (S.sought sought.now) (state O.key O.Key.cmp entries.now) }
{
    let place = search(entries, present, sought);
    object_at(entries, present, place)
}

/// The version of the key's last entry, or 0.
pub fn last<O: Item>(entries: &[Entry<O>], lasts: &[u64], key: &O::Key) -> u64
    requires { lasts.now ≡ map row_version (last_rows O.Key.cmp entries.now) }
    ensures { result ≡ last_version O.Key.cmp entries.now key.now }
{
    let place = search(entries, lasts, &WholeKey::<O>(key));
    version_at(lasts, place)
}

/// The places of the objects whose keys are in the span: the first, and the one behind the last.
pub fn range_of<O: Item, S: Span<O>>(
    entries: &[Entry<O>],
    present: &[u64],
    span: &S,
) -> (usize, usize)
    requires { IsPresentIndex O.Item O.Key.cmp entries.now present.now }
    ensures objects { in_span O.key (S.side span.now) (state O.key O.Key.cmp entries.now)
        ≡ take (result.1 - result.0) (drop result.0 (state O.key O.Key.cmp entries.now)) }
    ensures ordered { result.0 ≤ result.1 }
    ensures within { result.1 ≤ length present.now }
{
    let first = place_of(entries, present, &Below(span));
    let end = place_of(entries, present, &UpTo(span));
    (first, end)
}

/// The versions of the objects of the kind that stand.
pub fn list<O: Item>(
    alloc: Global,
    entries: &[Entry<O>],
    present: &[u64],
    kind: O::Kind,
) -> Result<Vec<u64>, AllocError>
    requires { IsPresentIndex O.Item O.Key.cmp entries.now present.now }
    ensures { IfOk result (λ list. list.items ≡ versions_of O.stamp (of_kind O.key O.kind_of O.Kind.eq kind (state O.key O.Key.cmp entries.now))) }
{
    let (first, end) = range_of(entries, present, &OfKind(kind));
    Vec::from_slice(alloc, &present[first..end])
}

/// The versions of the first `most` entries on the kind after a position.
pub fn changes<O: Item>(
    alloc: Global,
    entries: &[Entry<O>],
    kind: O::Kind,
    after: u64,
    most: u64,
) -> Result<Vec<u64>, AllocError>
    requires { length entries.now < 2 ^ 64 }
    ensures { IfOk result (λ versions. versions.items ≡ changes O.kind_of O.Kind.eq entries.now kind after most) }
{
    let mut versions = Vec::new(alloc);
    let start = after.min(entries.len() as u64);
    for index in start as usize..entries.len() {
        if versions.len() as u64 >= most {
            break;
        }
        if O::kind_of(&entries[index].key) == kind {
            versions.push(index as u64 + 1)?;
        }
    }
    Ok(versions)
}

/// Puts a version at the place of its key. There is memory for it.
pub fn put(versions: &mut Vec<u64>, place: Result<usize, usize>, version: u64)
    requires within { IsPlaceIn place (vec_len versions.old) }
    requires room { vec_len versions.old < vec_capacity versions.old }
    ensures items { versions.new.items ≡ put_at version versions.old.items place }
    ensures len { vec_len versions.new ≤ vec_len versions.old + 1 }
    ensures capacity { vec_capacity versions.old ≤ vec_capacity versions.new }
{
    match place {
        Ok(place) => versions[place] = version,
        Err(place) => {
            if versions.insert(place, version).is_err() {
                unreachable!()
            }
        }
    }
}

/// Adds a version behind the others. There is memory for it.
pub fn append(versions: &mut Vec<u64>, version: u64)
    requires { vec_len versions.old < vec_capacity versions.old }
    ensures items { versions.new.items ≡ versions.old.items ++ version ∷ [] }
    ensures len { vec_len versions.new ≡ vec_len versions.old + 1 }
    ensures capacity { vec_capacity versions.old ≤ vec_capacity versions.new }
{
    if versions.push(version).is_err() {
        unreachable!()
    }
}

/// Removes the version at the place, if the key is there.
fn remove(versions: &mut Vec<u64>, place: Result<usize, usize>)
    requires { IsPlaceIn place (vec_len versions.old) }
    ensures items { versions.new.items ≡ removed_at versions.old.items place }
    ensures len { vec_len versions.new ≤ vec_len versions.old }
    ensures capacity { vec_capacity versions.old ≤ vec_capacity versions.new }
{
    if let Ok(place) = place {
        versions.remove(place);
    }
}

/// Puts a version at the place of its key, or removes the one that is there.
pub fn change(versions: &mut Vec<u64>, place: Result<usize, usize>, stands: bool, version: u64)
    requires within { IsPlaceIn place (vec_len versions.old) }
    requires room { vec_len versions.old < vec_capacity versions.old }
    ensures items { versions.new.items ≡ cond stands (put_at version versions.old.items place) (removed_at versions.old.items place) }
    ensures len { vec_len versions.new ≤ vec_len versions.old + 1 }
    ensures capacity { vec_capacity versions.old ≤ vec_capacity versions.new }
{
    if stands {
        put(versions, place, version);
    } else {
        remove(versions, place);
    }
}

/// What is known of a key: the object that stands, its last version, and its places in the two lists.
#[derive(Drop)]
pub struct OfKey<'a, O: Item> {
    pub standing: Option<&'a O>,
    pub last: u64,
    pub among_lasts: Result<usize, usize>,
    pub among_present: Result<usize, usize>,
}

/// Searches for a key in both lists.
pub fn of_key<'a, O: Item>(
    entries: &'a [Entry<O>],
    lasts: &[u64],
    present: &[u64],
    key: &O::Key,
) -> OfKey<'a, O>
    requires lasts { lasts.now ≡ map row_version (last_rows O.Key.cmp entries.now) }
    requires present { IsPresentIndex O.Item O.Key.cmp entries.now present.now }
    ensures standing { option_copied result.standing ≡ find O.key O.Key.cmp key.now (state O.key O.Key.cmp entries.now) }
    ensures last { result.last ≡ last_version O.Key.cmp entries.now key.now }
    ensures lasts { result.among_lasts ≡ search_in O.Key.cmp key.now (map row_key (last_rows O.Key.cmp entries.now)) }
    ensures lasts_within { IsPlaceIn result.among_lasts (length lasts.now) }
    ensures present { result.among_present ≡ search_in O.Key.cmp key.now (map O.key (state O.key O.Key.cmp entries.now)) }
    ensures present_within { IsPlaceIn result.among_present (length present.now) }
{
    let among_lasts = search(entries, lasts, &WholeKey::<O>(key));
    let among_present = search(entries, present, &WholeKey::<O>(key));
    OfKey {
        standing: object_at(entries, present, among_present),
        last: version_at(lasts, among_lasts),
        among_lasts,
        among_present,
    }
}

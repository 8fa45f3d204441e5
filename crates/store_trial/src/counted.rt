//! An item whose keys count their comparisons.
ghost use Rattle.std.specs.Prelude.{◌≡◌, ◌==◌, Bool, true, false};
ghost use Rattle.std.proofs.Common.{rules};
ghost use Rattle.std.specs.Cmp.{partial_order_from_own_ties};
ghost use Rattle.std.specs.Cmp.Rules.{comparing};
ghost use Rattle.std.specs.Ordering.{nat_cmp, on, as_partial_cmp};
ghost use Rattle.store_trial.specs.Counted.{given_stamp, counted_alone, always_equivalent, counted_same, same_counted, one_kind};

use std::cell::Cell;
use std::cmp::Ordering;
use version_store::{Item, SearchKey, Stamp};

/// A number, and the counter that each comparison raises.
pub struct CountedKey<'a> {
    pub number: u64,
    pub counter: &'a Cell<u64>,
}

impl Drop for CountedKey<'_> {
    fn drop(self) {
        let CountedKey {
            number: _,
            counter: _,
        } = self;
    }
}

impl PartialEq for CountedKey<'_> {
    ghost eq = { on (λ k. k.number) ◌==◌ };

    ghost laws = { Prim.search (comparing, rules) };

    fn eq(&self, other: &Self) -> bool {
        self.number == other.number
    }
}

impl Eq for CountedKey<'_> {
    ghost laws = { Prim.search (comparing, rules) };
}

impl PartialOrd for CountedKey<'_> {
    ghost partial_cmp = { as_partial_cmp (on (λ k. k.number) nat_cmp) };

    ghost laws = { partial_order_from_own_ties (Prim.search (comparing, rules)) (Prim.search (comparing, rules)) };

    fn partial_cmp(&self, other: &Self) -> Option<Ordering> {
        Some(self.cmp(other))
    }
}

impl Ord for CountedKey<'_> {
    ghost cmp = { on (λ k. k.number) nat_cmp };

    ghost total = { Prim.search (comparing, rules) };

    ghost matches_partial_cmp = { Prim.search (comparing, rules) };

    ghost matches_eq = { Prim.search (comparing, rules) };

    fn cmp(&self, other: &Self) -> Ordering {
        self.counter.set(self.counter.get().wrapping_add(1));
        self.number.cmp(&other.number)
    }
}

/// An item of such a key. All are of one kind.
#[derive(Drop)]
pub struct Counted<'a> {
    pub key: CountedKey<'a>,
    pub stamp: Stamp,
}

impl<'a> Item for Counted<'a> {
    type Kind = bool;

    type Key = CountedKey<'a>;

    type Name = u64;

    type Actor = bool;

    ghost key = { λ o. o.key };

    ghost kind_of = { λ k. true };

    ghost stamp = { λ o. o.stamp };

    ghost stamped = { given_stamp };

    ghost same_spec = { λ a b. true };

    ghost same = { same_counted };

    ghost guards = { λ o. false };

    fn key(&self) -> &CountedKey<'a> {
        &self.key
    }

    fn kind_of(_it: &CountedKey<'a>) -> bool {
        true
    }

    fn stamp(&self) -> Stamp {
        self.stamp
    }

    fn set_stamp(&mut self, to: Stamp) {
        self.stamp = to;
    }

    fn same_spec(&self, _other: &Self) -> bool {
        true
    }

    fn same(&self, other: &Self) -> bool {
        self.key.number == other.key.number
    }

    fn guards(&self) -> bool {
        false
    }

    ghost stamp_alone = { counted_alone };

    ghost spec_equivalence = { always_equivalent };

    ghost same_but_stamp = { counted_same };

    ghost kinds_together = { one_kind (on (λ k. k.number) nat_cmp) };
}

impl<'a> SearchKey<Counted<'a>> for CountedKey<'a> {
    ghost sought = { λ key. key };

    fn compare(&self, key: &CountedKey<'a>) -> Ordering {
        key.cmp(self)
    }
}

#[cfg(test)]
mod tests;

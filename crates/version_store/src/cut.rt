//! Places in the order of keys.
ghost use Rattle.std.specs.Prelude.{◌≡◌, Bool};
ghost use Rattle.std.specs.Ordering.{is_lt, is_le};
ghost use Rattle.version_store.specs.Laws.{IsBeforeCut};
ghost use Rattle.version_store.specs.Cuts.{before_key, below_span, up_to_span, kind_span, side_behind, behind_span};

use crate::item::{Item, SearchKey, Span};
use std::cmp::Ordering;

/// A cut of the keys in order: some are before it, and with a key all lesser ones.
pub trait Cut<O: Item> {
    ghost before: { Self → O.Key → Bool };

    /// Whether the key is before the cut.
    fn is_before(&self, key: &O::Key) -> bool
        ensures { result ≡ before self.now key.now };

    ghost is_cut: { (cut : Self) → IsBeforeCut O.Key.cmp (before cut) };
}

/// Before it are the keys less than the one that is sought.
#[derive(Drop)]
pub struct BelowKey<'a, S>(pub &'a S);

impl<'a, O: Item, S: SearchKey<O>> Cut<O> for BelowKey<'a, S> {
    ghost before = { λ cut key. is_lt (O.Key.cmp key (S.sought cut.0.now)) };

    fn is_before(&self, key: &O::Key) -> bool {
        self.0.compare(key).is_lt()
    }

    ghost is_cut = { λ cut. before_key O.Key.cmp O.Key.total (S.sought cut.0.now) };
}

/// Before it are the keys before the span.
#[derive(Drop)]
pub struct Below<'a, S>(pub &'a S);

impl<'a, O: Item, S: Span<O>> Cut<O> for Below<'a, S> {
    ghost before = { λ cut key. is_lt (S.side cut.0.now key) };

    fn is_before(&self, key: &O::Key) -> bool {
        self.0.side(key).is_lt()
    }

    ghost is_cut = { λ cut. below_span O.Key.cmp (S.side cut.0.now) (S.together cut.0.now) };
}

/// Before it are the keys before the span and in it.
#[derive(Drop)]
pub struct UpTo<'a, S>(pub &'a S);

impl<'a, O: Item, S: Span<O>> Cut<O> for UpTo<'a, S> {
    ghost before = { λ cut key. is_le (S.side cut.0.now key) };

    fn is_before(&self, key: &O::Key) -> bool {
        self.0.side(key).is_le()
    }

    ghost is_cut = { λ cut. up_to_span O.Key.cmp (S.side cut.0.now) (S.together cut.0.now) };
}

/// The keys of a kind.
#[derive(Drop)]
pub struct OfKind<D>(pub D);

impl<O: Item> Span<O> for OfKind<O::Kind> {
    ghost side = { λ span key. O.Kind.cmp (O.kind_of key) span.0 };

    fn side(&self, key: &O::Key) -> Ordering {
        O::kind_of(key).cmp(&self.0)
    }

    ghost together = { λ span. kind_span O.Key.cmp O.Key.total O.kind_of O.Kind.cmp O.Kind.total O.kinds_together span.0 };
}

/// The keys of a kind behind the one that is sought.
#[derive(Drop)]
pub struct Behind<'a, D, S> {
    pub kind: D,
    pub sought: &'a S,
}

impl<'a, O: Item, S: SearchKey<O>> Span<O> for Behind<'a, O::Kind, S> {
    ghost side = { λ span key. side_behind (O.Kind.cmp (O.kind_of key) span.kind) (is_le (O.Key.cmp key (S.sought span.sought.now))) };

    fn side(&self, key: &O::Key) -> Ordering {
        match O::kind_of(key).cmp(&self.kind) {
            Ordering::Equal => {
                if self.sought.compare(key).is_le() {
                    Ordering::Less
                } else {
                    Ordering::Equal
                }
            }
            other => other,
        }
    }

    ghost together = { λ span. behind_span O.Key.cmp O.Key.total O.kind_of O.Kind.cmp O.Kind.total O.kinds_together span.kind (S.sought span.sought.now) };
}

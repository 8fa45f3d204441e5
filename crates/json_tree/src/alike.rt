//! Exact tests of equality.
ghost use Rattle.std.specs.Prelude.{◌≡◌, ◌↔◌, IsTrue};

use crate::members::Table;
use crate::seq::Seq;
use crate::text::Text;
use crate::value::Json;

/// Values of which it can be told whether they are equal.
///
/// This is more than `PartialEq` promises where the type isn't known: there two values are equal where the type calls
/// them so. A struct of such values has an `equals` whose body joins those of its fields by `&&`.
pub trait Alike {
    /// Whether the two are equal.
    fn equals(&self, other: &Self) -> bool
        ensures { IsTrue result ↔ (self.now ≡ other.now) };
}

impl Alike for bool {
    fn equals(&self, other: &bool) -> bool {
        *self == *other
    }
}

impl Alike for u64 {
    fn equals(&self, other: &u64) -> bool {
        *self == *other
    }
}

impl Alike for Text {
    fn equals(&self, other: &Text) -> bool {
        self.as_str() == other.as_str()
    }
}

impl<T: Alike> Alike for Option<T> {
    fn equals(&self, other: &Option<T>) -> bool {
        match (self, other) {
            (Some(one), Some(two)) => one.equals(two),
            (None, None) => true,
            _ => false,
        }
    }
}

impl<T: Alike> Alike for Seq<T> {
    fn equals(&self, other: &Seq<T>) -> bool {
        slices_are_equal(self.as_slice(), other.as_slice())
    }
}

fn slices_are_equal<T: Alike>(one: &[T], two: &[T]) -> bool
    ensures { IsTrue result ↔ (one.now ≡ two.now) }
{
    if one.len() != two.len() {
        return false;
    }
    for place in 0..one.len() {
        if !one[place].equals(&two[place]) {
            return false;
        }
    }
    true
}

impl<T: Alike> Alike for Table<T> {
    fn equals(&self, other: &Table<T>) -> bool {
        entries_are_equal(self.entries(), other.entries())
    }
}

fn entries_are_equal<T: Alike>(one: &[(Text, T)], two: &[(Text, T)]) -> bool
    ensures { IsTrue result ↔ (one.now ≡ two.now) }
{
    if one.len() != two.len() {
        return false;
    }
    for place in 0..one.len() {
        if !one[place].0.equals(&two[place].0) || !one[place].1.equals(&two[place].1) {
            return false;
        }
    }
    true
}

impl Alike for Json {
    #[cycle(alike)]
    fn equals(&self, other: &Json) -> bool {
        match (self, other) {
            (Json::Null, Json::Null) => true,
            (Json::Bool(one), Json::Bool(two)) => *one == *two,
            (Json::Int(one), Json::Int(two)) => *one == *two,
            (Json::Nat(one), Json::Nat(two)) => *one == *two,
            (Json::Str(one), Json::Str(two)) => one.equals(two),
            (Json::Arr(one), Json::Arr(two)) => items_are_equal(one.as_slice(), two.as_slice()),
            (Json::Obj(one), Json::Obj(two)) => members_are_equal(one.entries(), two.entries()),
            _ => false,
        }
    }
}

#[cycle(alike)]
fn items_are_equal(one: &[Json], two: &[Json]) -> bool
    ensures { IsTrue result ↔ (one.now ≡ two.now) }
{
    if one.len() != two.len() {
        return false;
    }
    for place in 0..one.len() {
        if !one[place].equals(&two[place]) {
            return false;
        }
    }
    true
}

#[cycle(alike)]
fn members_are_equal(one: &[(Text, Json)], two: &[(Text, Json)]) -> bool
    ensures { IsTrue result ↔ (one.now ≡ two.now) }
{
    if one.len() != two.len() {
        return false;
    }
    for place in 0..one.len() {
        if !one[place].0.equals(&two[place].0) || !one[place].1.equals(&two[place].1) {
            return false;
        }
    }
    true
}

//! `==` of lists, by the `==` of their items.
ghost use Rattle.std.specs.Cmp.Lexicographic.{pointwise, lists_per};

use crate::seq::Seq;

impl<T: PartialEq> PartialEq for Seq<T> {
    ghost eq = { pointwise T.eq };

    ghost laws = { lists_per T.laws };

    fn eq(&self, other: &Seq<T>) -> bool {
        self.as_slice() == other.as_slice()
    }
}

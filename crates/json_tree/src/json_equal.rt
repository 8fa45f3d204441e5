//! `==` of JSON values, which is equality.
ghost use Rattle.std.specs.Cmp.{partial_equiv_from_equiv};
ghost use Rattle.json_tree.specs.Equal.{is_equal};
ghost use Rattle.json_tree.specs.EqualLaws.{is_equal-equivalence};
ghost use Rattle.json_tree.specs.contracts.value.Json.{the_row};

use crate::alike::Alike;
use crate::value::Json;

impl PartialEq for Json {
    ghost eq = { is_equal the_row.coded };

    ghost laws = { partial_equiv_from_equiv (is_equal-equivalence the_row.coded (λ j. j)) };

    fn eq(&self, other: &Json) -> bool {
        self.equals(other)
    }
}

impl Eq for Json {
    ghost laws = { is_equal-equivalence the_row.coded (λ j. j) };
}

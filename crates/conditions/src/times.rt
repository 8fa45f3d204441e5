//! The moments at which the truths of conditions changed.
ghost use Rattle.std.specs.Prelude.{◌≡◌};
ghost use Rattle.std.specs.List.{find};
ghost use Rattle.std.specs.Option.{option_copied};
ghost use Rattle.conditions.specs.Times.{is_unchanged, since_of, settled};

use json_tree::Seq;
use resource_types::Condition;

// The first old condition of the new one's name and truth.
fn unchanged<'a>(old: &'a Seq<Condition>, new: &Condition) -> Option<&'a Condition>
    ensures { option_copied result ≡ find (is_unchanged new.now) old.now }
{
    for condition in old.as_slice() {
        if condition.name == new.name && condition.truth == new.truth {
            return Some(condition);
        }
    }
    None
}

// Since when a condition has its truth: the time of the first old one with its name and truth, or the moment.
fn since_of(old: &Seq<Condition>, new: &Condition, moment: u64) -> u64
    ensures { result ≡ since_of old.now new.now moment }
{
    match unchanged(old, new) {
        Some(condition) => condition.since,
        None => moment,
    }
}

/// The new conditions, each with the time of the first old one of its name and truth, or with the moment where there is
/// none: a time moves where the truth does, and nowhere else. It takes no memory.
pub fn settle_times(old: &Seq<Condition>, new: Seq<Condition>, moment: u64) -> Seq<Condition>
    ensures { result ≡ settled old.now new moment }
{
    let mut conditions = new.into_vec();
    for place in 0..conditions.len() {
        conditions[place].since = since_of(old, &conditions[place], moment);
    }
    Seq::from_vec(conditions)
}

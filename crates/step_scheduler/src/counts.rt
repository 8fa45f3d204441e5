//! Counts that stand still at their type's end.
ghost use Rattle.std.specs.Prelude.{◌≡◌};
ghost use Rattle.step_scheduler.specs.Counts.{one_more};

/// One more, or the greatest number where there is no greater one.
pub fn one_more(count: u64) -> u64
    ensures { result ≡ one_more count }
{
    if count < u64::MAX { count + 1 } else { count }
}

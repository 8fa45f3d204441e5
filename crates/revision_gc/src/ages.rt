//! What counts of a Revision that may be collected: its age, and its place in the order.
ghost use Rattle.std.specs.Prelude.{◌≡◌};
ghost use Rattle.control_rules.specs.Collection.{has_passed, is_stale, comes_before};
ghost use Rattle.revision_gc.specs.Choices.{candidate_as};

use control_rules::{Candidate, GcSettings};
use json_tree::Text;
use std::cmp::Ordering;

/// What collection knows of a Revision, as a [`Candidate`], with its name borrowed.
#[derive(Clone, Copy)]
pub struct Age<'a> {
    /// The moment at which the Revision was made.
    pub created: u64,
    /// The moment from which on it has or lacks pins as it does, or at which it was made.
    pub active: u64,
    /// The generation of the Configuration that it was made for.
    pub generation: u64,
    /// Its simple name.
    pub name: &'a Text,
}

/// The candidate, borrowed.
pub fn age_of(candidate: &Candidate) -> Age<'_>
    ensures { candidate_as result ≡ candidate.now }
{
    Age {
        created: candidate.created,
        active: candidate.active,
        generation: candidate.generation,
        name: &candidate.name,
    }
}

// Whether the time has passed since the moment. One that doesn't count always has.
fn has_passed(time: Option<u64>, since: u64, now: u64) -> bool
    ensures { result ≡ has_passed time since now }
{
    match time {
        Some(time) => now.saturating_sub(since) > time,
        None => true,
    }
}

impl Age<'_> {
    /// Whether a time counts, and each one that counts has passed.
    pub fn is_stale(&self, settings: &GcSettings, now: u64) -> bool
        ensures { result ≡ is_stale settings.now now (candidate_as self.now) }
    {
        (settings.create.is_some() || settings.active.is_some())
            && has_passed(settings.create, self.created, now)
            && has_passed(settings.active, self.active, now)
    }

    /// Whether it comes first: by the active moment, then by generation, then by name.
    pub fn comes_before(&self, other: &Age) -> bool
        ensures { result ≡ comes_before (candidate_as self.now) (candidate_as other.now) }
    {
        let order = match self.active.cmp(&other.active) {
            Ordering::Equal => match self.generation.cmp(&other.generation) {
                Ordering::Equal => self.name.cmp(other.name),
                earlier => earlier,
            },
            earlier => earlier,
        };
        order == Ordering::Less
    }
}
